// What a line asks for.
use crate::reads::Reading;
use crate::writes::Writing;
use arrayvec::ArrayVec;
use text::{names, words};

// A name in a directory. Its first 64 bytes are more than any name may have, so that a longer one is seen to be.
#[derive(Drop)]
pub struct Child {
    pub parent: u64,
    pub name: ArrayVec<u8, 64>,
}

impl Child {
    pub fn new(parent: &[u8], name: &[u8]) -> Child {
        Child {
            parent: words::number(parent),
            name: names::name(name),
        }
    }
}

// How many bytes of each slice a call is given.
#[derive(Clone, Copy)]
pub struct Lengths {
    pub state: usize,
    pub upper: usize,
    pub lower: usize,
}

#[derive(Drop)]
pub enum Call {
    Read(Reading),
    Write(Writing),
}

impl Call {
    fn parse(line: &[u8]) -> Option<Call> {
        match Reading::parse(line) {
            Some(reading) => Some(Call::Read(reading)),
            None => Writing::parse(line).map(Call::Write),
        }
    }
}

#[derive(Drop)]
pub enum Command {
    Heading,
    Layers { upper: bool, lower: usize },
    Layer(usize),
    Lengths(Lengths),
    Show(bool),
    Next(u64),
    Call(Call),
    // Any other line puts an item into the layer in hand, or is none.
    Item,
}

impl From<&[u8]> for Command {
    fn from(line: &[u8]) -> Command {
        let place = |k| words::place(words::word(line, k));
        match words::word(line, 0) {
            b"==" => Command::Heading,
            b"layers" => Command::Layers {
                upper: place(1) != 0,
                lower: place(2),
            },
            b"layer" => Command::Layer(place(1)),
            b"lengths" => Command::Lengths(Lengths {
                state: place(1),
                upper: place(2),
                lower: place(3),
            }),
            b"show" => Command::Show(place(1) != 0),
            b"next" => Command::Next(words::number_at(line, 1)),
            _ => match Call::parse(line) {
                Some(call) => Command::Call(call),
                None => Command::Item,
            },
        }
    }
}
