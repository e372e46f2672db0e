// The questions, each answered in a line.
use arrayvec::ArrayVec;
use layers::items::Table;
use std::cmp::Ordering;
use std::fmt;
use std::io::{Result, Write};
use text::{names, output, words};

// The rest of a line behind its verb.
fn rest(line: &[u8]) -> &[u8] {
    line.get(words::word(line, 0).len()..).unwrap_or(b"")
}

// A place that a search answered.
#[derive(Clone, Copy)]
struct Place(Option<usize>);

impl fmt::Display for Place {
    fn fmt<W: fmt::Write>(&self, f: &mut fmt::Formatter<W>) -> fmt::Result {
        match self.0 {
            Some(k) => write!(f, "place {k}"),
            None => write!(f, "none"),
        }
    }
}

// `valid LABEL`: whether the bytes keep every table rule.
pub fn valid(out: &mut impl Write, t: &[u8], line: &[u8]) -> Result<()> {
    out.write_all(if layers::rules::valid(t) {
        b"valid   "
    } else {
        b"refused "
    })?;
    output::write_line(out, rest(line))
}

// `malformed NAME`
pub fn malformed(out: &mut impl Write, word: &[u8]) -> Result<()> {
    let name: ArrayVec<u8, 32> = names::name(word);
    out.write_all(if layers::names::malformed(name.as_slice()) {
        b"malformed "
    } else {
        b"a name    "
    })?;
    output::write_line(out, word)
}

// `order NAME NAME`
pub fn order(out: &mut impl Write, x: &[u8], y: &[u8]) -> Result<()> {
    out.write_all(x)?;
    out.write_all(match layers::names::compare(x, y) {
        Ordering::Less => b" comes before ".as_slice(),
        Ordering::Equal => b" is the same as ",
        Ordering::Greater => b" comes after ",
    })?;
    output::write_line(out, y)
}

// `search PARENT NAME`
pub fn search(out: &mut impl Write, t: &Table, parent: u8, name: &[u8], line: &[u8]) -> Result<()> {
    out.write_all(b"search")?;
    out.write_all(rest(line))?;
    writeln!(out, ": {}", Place(layers::search::search(t, parent, name)))
}

// `free LABEL`: the lowest free places, and how many are used.
pub fn free(out: &mut impl Write, t: &Table, line: &[u8]) -> Result<()> {
    let record = Place(layers::search::free_record(t));
    let entry = Place(layers::search::free_entry(t));
    let records = layers::search::used_records(t);
    let entries = layers::search::used_entries(t);
    write!(
        out,
        "free record {record}, entry {entry}; used {records} records, {entries} entries:"
    )?;
    output::write_line(out, rest(line))
}

// `naming RECORD`: how many entries name it.
pub fn naming(out: &mut impl Write, t: &Table, record: u8, line: &[u8]) -> Result<()> {
    out.write_all(b"record")?;
    out.write_all(rest(line))?;
    writeln!(
        out,
        " is named by {}",
        layers::search::naming_entries(t, record)
    )
}

// `read OFFSET`: the numbers of 2, 4 and 8 bytes there.
pub fn read(out: &mut impl Write, t: &[u8], offset: usize, line: &[u8]) -> Result<()> {
    out.write_all(b"at")?;
    out.write_all(rest(line))?;
    writeln!(
        out,
        ": {} {} {}",
        layers::bytes::number_at::<u16>(t, offset),
        layers::bytes::number_at::<u32>(t, offset),
        layers::bytes::number_at::<u64>(t, offset)
    )
}
