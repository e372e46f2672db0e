// The calls that write the upper layer, each from its line.
use crate::answer::Answer;
use crate::command::Child;
use calls::face;
use std::io::{Result, Write};
use text::{encode, words};

// The permissions that a creation is given, and what its umask takes away.
#[derive(Clone, Copy)]
pub struct Mode {
    permissions: u32,
    umask: u32,
}

// What a creation makes.
#[derive(Clone, Copy)]
pub enum New {
    Node { kind: u32, mode: Mode, device: u64 },
    File(Mode),
    Symlink(u64),
}

#[derive(Drop)]
pub enum Writing {
    Create(Child, New),
    Link(u64, Child),
    CopyUp(u64),
}

fn small(w: &[u8]) -> u32 {
    (words::number(w) & 0xffff_ffff) as u32
}

impl Mode {
    fn new(permissions: &[u8], umask: &[u8]) -> Mode {
        Mode {
            permissions: small(permissions),
            umask: small(umask),
        }
    }
}

// A kind, by its word or its number.
fn kind(w: &[u8]) -> u32 {
    match small(w) {
        0 => u32::from(encode::kind_named(w)),
        number => number,
    }
}

fn create(state: &mut [u8], upper: &mut [u8], lower: &[u8], child: &Child, new: New) -> u64 {
    let parent = child.parent;
    let name = child.name.as_slice();
    match new {
        New::Node { kind, mode, device } => face::overlay_mknod(
            state,
            upper,
            lower,
            parent,
            name,
            kind,
            mode.permissions,
            mode.umask,
            device,
        ),
        New::File(mode) => {
            let Mode { permissions, umask } = mode;
            face::overlay_create(state, upper, lower, parent, name, permissions, umask)
        }
        New::Symlink(content) => {
            face::overlay_symlink(state, upper, lower, parent, name, content)
        }
    }
}

impl Writing {
    // The call that a line says.
    pub fn parse(line: &[u8]) -> Option<Writing> {
        let word = |k| words::word(line, k);
        let number = words::number(word(1));
        let child = Child::new(word(1), word(2));
        Some(match word(0) {
            b"mknod" => {
                let new = New::Node {
                    kind: kind(word(3)),
                    mode: Mode::new(word(4), word(5)),
                    device: words::number(word(6)),
                };
                Writing::Create(child, new)
            }
            b"create" => Writing::Create(child, New::File(Mode::new(word(3), word(4)))),
            b"symlink" => Writing::Create(child, New::Symlink(words::number(word(3)))),
            b"link" => Writing::Link(number, Child::new(word(2), word(3))),
            b"copy_up" => Writing::CopyUp(number),
            _ => return None,
        })
    }

    // Makes the call and prints its answer.
    pub fn make(
        self,
        out: &mut impl Write,
        state: &mut [u8],
        upper: &mut [u8],
        lower: &[u8],
    ) -> Result<()> {
        let answer = match self {
            Writing::Create(child, new) => Answer::Node(create(state, upper, lower, &child, new)),
            Writing::Link(source, child) => {
                let name = child.name.as_slice();
                Answer::Node(face::overlay_link(state, upper, lower, source, child.parent, name))
            }
            Writing::CopyUp(node) => {
                Answer::Errno(face::overlay_copy_up(state, upper, lower, node))
            }
        };
        writeln!(out, "{answer}")
    }
}
