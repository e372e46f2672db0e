// What a line asks for.
use text::words;

#[derive(Clone, Copy)]
pub enum Command<'a> {
    Heading,
    Table,
    Size(usize),
    Valid,
    Malformed(&'a [u8]),
    Order(&'a [u8], &'a [u8]),
    Search(u8, &'a [u8]),
    Free,
    Naming(u8),
    Read(usize),
    Drop(usize),
    Write(usize, u64),
    // Any other line puts an item into the table, or is none.
    Item,
}

impl<'a> From<&'a [u8]> for Command<'a> {
    fn from(line: &'a [u8]) -> Command<'a> {
        let word = |k| words::word(line, k);
        match word(0) {
            b"==" => Command::Heading,
            b"table" => Command::Table,
            b"size" => Command::Size(words::place(word(1))),
            b"valid" => Command::Valid,
            b"malformed" => Command::Malformed(word(1)),
            b"order" => Command::Order(word(1), word(2)),
            b"search" => Command::Search(words::byte(word(1)), word(2)),
            b"free" => Command::Free,
            b"naming" => Command::Naming(words::byte(word(1))),
            b"read" => Command::Read(words::place(word(1))),
            b"drop" => Command::Drop(words::place(word(1))),
            b"write" => Command::Write(words::place(word(1)), words::number(word(2))),
            _ => Command::Item,
        }
    }
}
