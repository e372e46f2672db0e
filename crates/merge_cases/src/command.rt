// What a line asks for.
use text::words;

#[derive(Clone, Copy)]
pub enum Command<'a> {
    Heading,
    Layers { upper: bool, lower: usize },
    Layer(usize),
    Root,
    Load(u64),
    Look(u64),
    Forget { number: u64, amount: u64 },
    Next(u64),
    Nodes,
    Count,
    Stack(&'a [u8]),
    // Any other line puts an item into the layer in hand, or is none.
    Item,
}

impl<'a> From<&'a [u8]> for Command<'a> {
    fn from(line: &'a [u8]) -> Command<'a> {
        let number = |k| words::number_at(line, k);
        match words::word(line, 0) {
            b"==" => Command::Heading,
            b"layers" => Command::Layers {
                upper: number(1) != 0,
                lower: number(2) as usize,
            },
            b"layer" => Command::Layer(number(1) as usize),
            b"root" => Command::Root,
            b"load" => Command::Load(number(1)),
            b"look" => Command::Look(number(1)),
            b"forget" => Command::Forget {
                number: number(1),
                amount: number(2),
            },
            b"next" => Command::Next(number(1)),
            b"nodes" => Command::Nodes,
            b"count" => Command::Count,
            b"stack" => Command::Stack(words::word(line, 1)),
            _ => Command::Item,
        }
    }
}
