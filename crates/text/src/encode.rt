// A line of text put into a table.
ghost use Rattle.std.specs.Prelude.{◌∷◌, ◌++◌, [], OnOk, codes};
ghost use Rattle.std.specs.Io.KnownBytes.{Appends};

use crate::{memory, names, output, words};
use layers::items::{Entry, Record};
use layers::kinds::Kind;
use std::error::Error;
use std::{fmt, io};

// A line that puts nothing into a table.
#[derive(Clone, Copy, Debug, PartialEq, Eq)]
pub struct NoSuchLine<'a> {
    pub line: &'a [u8],
}

impl fmt::Display for NoSuchLine<'_> {
    fn fmt<W: fmt::Write>(&self, f: &mut fmt::Formatter<W>) -> fmt::Result {
        f.write_str("no such line")
    }
}

impl Error for NoSuchLine<'_> {}

impl NoSuchLine<'_> {
    // The error with the line, whose bytes need not be text.
    pub fn write_to<W: io::Write>(&self, out: &mut W) -> io::Result<()>
        ensures { OnOk result (Appends (W.contents out.old) (W.contents out.new) (codes "no such line: " ++ (self.now.line.now ++ 10 ∷ []))) }
    {
        out.write_all(b"no such line: ")?;
        output::write_line(out, self.line)
    }
}

// The kind of that name.
fn kind_of_name(w: &[u8]) -> Option<Kind> {
    match w {
        b"fifo" => Some(Kind::Fifo),
        b"character" => Some(Kind::Character),
        b"directory" => Some(Kind::Directory),
        b"block" => Some(Kind::Block),
        b"regular" => Some(Kind::Regular),
        b"symlink" => Some(Kind::Symlink),
        b"socket" => Some(Kind::Socket),
        _ => None,
    }
}

// The kind that a word names: its name, or its dirent type number, which may be no kind's.
pub fn kind_named(w: &[u8]) -> u8 {
    kind_of_name(w).map_or_else(|| words::byte(w), u8::from)
}

// One of the record's fields, by its name; another name changes nothing.
fn set_field(r: &mut Record, key: &[u8], value: &[u8]) {
    match key {
        b"number" => r.number = words::byte(value),
        b"opaque" => r.opaque = words::byte(value),
        b"mark" => r.mark = words::byte(value),
        b"links" => r.links = words::small(value),
        b"device" => r.device = words::number(value),
        b"size" => r.size = words::number(value),
        b"content" => r.content = words::number(value),
        _ => {}
    }
}

// `record PLACE KIND PERMISSIONS`, then at most eight pairs of a field's name and value.
fn record_line(line: &[u8]) -> Record {
    let mut r = layers::items::no_record();
    r.number = words::byte(words::word(line, 1));
    r.kind = kind_named(words::word(line, 2));
    r.permissions = words::small(words::word(line, 3));
    for pair in 2..10 {
        set_field(
            &mut r,
            words::word(line, 2 * pair),
            words::word(line, 2 * pair + 1),
        );
    }
    r
}

// A name's first 28 bytes, zeros behind them.
fn padded(w: &[u8]) -> [u8; 28] {
    let mut name = [0; 28];
    for (to, byte) in name.iter_mut().zip(names::name_bytes(w)) {
        *to = byte;
    }
    name
}

// `entry PLACE PARENT CHILD NAME`; the name's length and the zero byte may follow.
fn entry_line(line: &[u8]) -> Entry {
    let name = words::word(line, 4);
    let length = match words::word(line, 5) {
        b"" => (names::name_bytes(name).count() % 256) as u8,
        given => words::byte(given),
    };
    Entry {
        parent: words::byte(words::word(line, 2)),
        child: words::byte(words::word(line, 3)),
        length,
        zero: words::byte(words::word(line, 6)),
        name: padded(name),
    }
}

// `byte OFFSET VALUE`: any byte of the table, for damage that no record or entry line writes.
fn byte_put(t: &mut [u8], line: &[u8]) {
    if let Some(byte) = t.get_mut(words::place(words::word(line, 1))) {
        *byte = words::byte(words::word(line, 2));
    }
}

fn record_put(t: &mut [u8], line: &[u8]) {
    if let Some(t) = t.as_mut_array() {
        layers::items::put_record(t, words::place(words::word(line, 1)), record_line(line));
    }
}

fn entry_put(t: &mut [u8], line: &[u8]) {
    if let Some(t) = t.as_mut_array() {
        layers::items::put_entry(t, words::place(words::word(line, 1)), entry_line(line));
    }
}

// Puts what a line says into the table of 8192 bytes.
pub fn put_line<'a>(t: &mut [u8], line: &'a [u8]) -> Result<(), NoSuchLine<'a>> {
    match words::word(line, 0) {
        b"record" => record_put(t, line),
        b"entry" => entry_put(t, line),
        b"byte" => byte_put(t, line),
        _ => return Err(NoSuchLine { line }),
    }
    Ok(())
}

// Puts a line into the table of layer `k`: 0 the upper one, 1 to 3 the lower ones, one after another. A layer that is not there takes any line.
pub fn put_layer_line<'a>(
    upper: &mut [u8],
    lower: &mut [u8],
    k: usize,
    line: &'a [u8],
) -> Result<(), NoSuchLine<'a>> {
    if k == 0 {
        return put_line(memory::first_mut(upper, 8192), line);
    }
    match lower.chunks_exact_mut(8192).take(3).nth(k - 1) {
        Some(t) => put_line(t, line),
        None => Ok(()),
    }
}
