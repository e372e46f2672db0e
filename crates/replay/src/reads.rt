// The calls that leave the upper layer as it is, each from its line.
use crate::answer::{self, Answer, Dirents};
use crate::command::Child;
use calls::face;
use std::io::{Result, Write};
use text::{memory, words};

#[derive(Drop)]
pub enum Reading {
    Import,
    Lookup(Child),
    Count(u64),
    List(Listing),
    Forget { node: u64, amount: u64 },
    Node { node: u64, bytes: u64 },
}

// How many bytes are asked for, and how many the buffer has, 16384 at most.
#[derive(Clone, Copy)]
pub struct Listing {
    node: u64,
    offset: u64,
    size: u64,
    buffer: u64,
}

// The number that a line's word writes, unless there is no such word.
fn given(line: &[u8], k: usize) -> Option<u64> {
    match words::word(line, k) {
        b"" => None,
        word => Some(words::number(word)),
    }
}

// A list's answer and its dirents; what the buffer holds behind the page is to stay as it was.
fn list(
    out: &mut impl Write,
    state: &mut [u8],
    upper: &[u8],
    lower: &[u8],
    x: Listing,
) -> Result<()> {
    let mut bytes = [170; 16384];
    let buffer = memory::first_mut(&mut bytes, x.buffer as usize);
    let page = face::overlay_list(state, upper, lower, x.node, x.offset, x.size, buffer);
    writeln!(out, "{}", Answer::Page(page))?;
    let length = answer::page_bytes(page) as usize;
    let dirents = Dirents {
        rest: memory::first(buffer, length),
    };
    for dirent in dirents {
        writeln!(out, "  {dirent}")?;
    }
    if buffer.iter().skip(length).any(|b| *b != 170) {
        out.write_all(b"  the buffer behind the page was changed\n")?;
    }
    Ok(())
}

impl Reading {
    // The call that a line says.
    pub fn parse(line: &[u8]) -> Option<Reading> {
        let first = words::number_at(line, 1);
        let second = words::number_at(line, 2);
        let size = words::number_at(line, 3);
        Some(match words::word(line, 0) {
            b"import" => Reading::Import,
            b"lookup" => Reading::Lookup(Child::new(words::word(line, 1), words::word(line, 2))),
            b"count" => Reading::Count(first),
            b"list" => Reading::List(Listing {
                node: first,
                offset: second,
                size,
                buffer: given(line, 4).unwrap_or(size),
            }),
            b"forget" => Reading::Forget {
                node: first,
                amount: second,
            },
            b"node" => Reading::Node {
                node: first,
                bytes: given(line, 2).unwrap_or(52),
            },
            _ => return None,
        })
    }

    // Makes the call and prints its answer.
    pub fn make(
        self,
        out: &mut impl Write,
        state: &mut [u8],
        upper: &[u8],
        lower: &[u8],
    ) -> Result<()> {
        let answer = match self {
            Reading::Import => Answer::Errno(face::overlay_import(state, upper, lower)),
            Reading::Lookup(child) => {
                let name = child.name.as_slice();
                Answer::Node(face::overlay_lookup(state, upper, lower, child.parent, name))
            }
            Reading::Count(node) => Answer::Count(face::overlay_count(state, upper, lower, node)),
            Reading::List(x) => return list(out, state, upper, lower, x),
            Reading::Forget { node, amount } => {
                face::overlay_forget(state, node, amount);
                return Ok(());
            }
            Reading::Node { node, bytes } => {
                let mut b = [0; 64];
                let b = memory::first_mut(&mut b, bytes as usize);
                Answer::Errno(face::overlay_node(state, node, b))
            }
        };
        writeln!(out, "{answer}")
    }
}
