// What a call answered, and a page's dirents.
ghost use Rattle.std.specs.Prelude.{length};
ghost use Rattle.std.specs.Iterator.{at_most};

use crate::print::Name;
use std::fmt;

// What C gets: an answer in 64 bits has the errno above, the value below.
#[derive(Clone, Copy)]
pub enum Answer {
    Errno(u32),
    Node(u64),
    Count(u64),
    Page(u64),
}

impl fmt::Display for Answer {
    fn fmt<W: fmt::Write>(&self, f: &mut fmt::Formatter<W>) -> fmt::Result {
        match *self {
            Answer::Errno(errno) => write!(f, "errno {errno}"),
            Answer::Node(r) => write!(f, "errno {} node {}", r >> 32, r & 0xffff_ffff),
            Answer::Count(r) => {
                let whiteouts = (r >> 16) & 0xffff;
                write!(
                    f,
                    "errno {} live {} whiteouts {whiteouts}",
                    r >> 32,
                    r & 0xffff
                )
            }
            Answer::Page(r) => {
                let remain = (r >> 31) & 1 == 1;
                let rest = if remain { " entries remain" } else { "" };
                write!(f, "errno {} bytes {}{rest}", r >> 32, page_bytes(r))
            }
        }
    }
}

// How many bytes a page has, of its answer.
pub fn page_bytes(r: u64) -> u64 {
    r & 0x7fff_ffff
}

#[derive(Clone, Copy)]
pub struct Dirent<'a> {
    inode: u64,
    offset: u64,
    kind: u32,
    name: &'a [u8],
}

impl fmt::Display for Dirent<'_> {
    fn fmt<W: fmt::Write>(&self, f: &mut fmt::Formatter<W>) -> fmt::Result {
        let Dirent {
            inode,
            offset,
            kind,
            name,
        } = self;
        write!(
            f,
            "inode {inode} offset {offset} type {kind} name {}",
            Name(name)
        )
    }
}

// A page's dirents, one behind another.
#[derive(Clone, Copy)]
pub struct Dirents<'a> {
    pub rest: &'a [u8],
}

impl<'a> Iterator for Dirents<'a> {
    type Item = Dirent<'a>;

    ghost remaining = { λ s. at_most (length s.rest.now) };

    fn next(&mut self) -> Option<Dirent<'a>> {
        let page = self.rest;
        if page.is_empty() {
            return None;
        }
        let length = layers::bytes::number_at::<u32>(page, 16) as usize;
        // A name that is longer than any is passed over.
        let (name, step) = if length <= 28 {
            (page.get(24..24 + length), 24 + length.next_multiple_of(8))
        } else {
            (None, 1)
        };
        self.rest = page.get(step..).unwrap_or(b"");
        Some(Dirent {
            inode: layers::bytes::number_at::<u64>(page, 0),
            offset: layers::bytes::number_at::<u64>(page, 8),
            kind: layers::bytes::number_at::<u32>(page, 20),
            name: name.unwrap_or(b""),
        })
    }
}
