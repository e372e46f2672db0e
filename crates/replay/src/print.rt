// Tables and nodes in the plain form of docs/REPLAY.md, a line each.
use layers::items::{Entry, Record};
use layers::kinds::{Kind, NoKind};
use merge::node::Node;
use std::fmt;
use text::memory;
use text::stacks::Stack;

fn is_plain(byte: u8) -> bool {
    byte.is_ascii_graphic() && byte != b'\\'
}

// A name: a byte that is no plain character prints as a backslash and two hexadecimal digits.
#[derive(Clone, Copy)]
pub struct Name<'a>(pub &'a [u8]);

impl fmt::Display for Name<'_> {
    fn fmt<W: fmt::Write>(&self, f: &mut fmt::Formatter<W>) -> fmt::Result {
        for byte in self.0 {
            if is_plain(*byte) {
                write!(f, "{}", char::from(*byte))?;
            } else {
                write!(f, "\\{byte:02x}")?;
            }
        }
        Ok(())
    }
}

// Of a name's field as many bytes as its length says; the root's, which is empty, prints as a slash.
fn name_of(field: &[u8; 28], length: u8) -> Name<'_> {
    if length == 0 {
        return Name(b"/");
    }
    Name(memory::first(field, usize::from(length)))
}

fn kind_word(kind: Kind) -> &'static str {
    match kind {
        Kind::Fifo => "fifo",
        Kind::Character => "character",
        Kind::Directory => "directory",
        Kind::Block => "block",
        Kind::Regular => "regular",
        Kind::Symlink => "symlink",
        Kind::Socket => "socket",
    }
}

// A record's kind: its word, or the number that is no kind's.
#[derive(Clone, Copy)]
struct KindNumber(u8);

impl fmt::Display for KindNumber {
    fn fmt<W: fmt::Write>(&self, f: &mut fmt::Formatter<W>) -> fmt::Result {
        match Kind::try_from(self.0) {
            Ok(kind) => f.write_str(kind_word(kind)),
            Err(NoKind(number)) => write!(f, "{number}"),
        }
    }
}

// Permissions in octal: three digits, or the lowest four where there are more.
#[derive(Clone, Copy)]
struct Permissions(u16);

impl fmt::Display for Permissions {
    fn fmt<W: fmt::Write>(&self, f: &mut fmt::Formatter<W>) -> fmt::Result {
        if self.0 < 0o1000 {
            write!(f, "0{:03o}", self.0)
        } else {
            write!(f, "0{:04o}", self.0 % 0o10000)
        }
    }
}

// A record at its place, as the text form has it; what is 0 is left out.
#[derive(Clone, Copy)]
pub struct PlacedRecord(pub usize, pub Record);

impl fmt::Display for PlacedRecord {
    fn fmt<W: fmt::Write>(&self, f: &mut fmt::Formatter<W>) -> fmt::Result {
        let r = self.1;
        write!(
            f,
            "record {} {} {}",
            self.0,
            KindNumber(r.kind),
            Permissions(r.permissions)
        )?;
        for (name, value) in [
            ("opaque", u64::from(r.opaque)),
            ("device", r.device),
            ("size", r.size),
            ("content", r.content),
        ] {
            if value != 0 {
                write!(f, " {name} {value}")?;
            }
        }
        Ok(())
    }
}

// An entry at its place.
#[derive(Clone, Copy)]
pub struct PlacedEntry(pub usize, pub Entry);

impl fmt::Display for PlacedEntry {
    fn fmt<W: fmt::Write>(&self, f: &mut fmt::Formatter<W>) -> fmt::Result {
        let e = self.1;
        write!(
            f,
            "entry {} {} {} {}",
            self.0,
            e.parent,
            e.child,
            name_of(&e.name, e.length)
        )
    }
}

#[derive(Clone, Copy)]
pub struct ShownNode(pub Node);

impl fmt::Display for ShownNode {
    fn fmt<W: fmt::Write>(&self, f: &mut fmt::Formatter<W>) -> fmt::Result {
        let n = self.0;
        let stack = Stack(memory::first(&n.stack, usize::from(n.depth)));
        let white = if n.white != 0 { " whiteout" } else { "" };
        let loaded = if n.loaded != 0 { " loaded" } else { "" };
        write!(
            f,
            "node {} in {} count {} {stack}{white}{loaded}",
            n.number, n.parent, n.count
        )?;
        write!(f, " name {}", name_of(&n.name, n.length))
    }
}
