// Runs the boundary cases of the layer tables: tables come as text, and each question prints a line.
#![tactic(auto)]

mod command;
mod questions;

use command::Command;
use layers::items::Table;
use std::io::{Result, Write};
use text::output::{self, Output};
use text::{encode, memory, words};

// The table in hand and a byte behind it, and of how many of these bytes `valid` is asked.
#[derive(Drop)]
struct Desk {
    bytes: [u8; 8193],
    size: usize,
}

impl Desk {
    // Does what a line says.
    fn act(&mut self, out: &mut impl Write, line: &[u8]) -> Result<()> {
        let t: &mut Table = self.bytes.first_chunk_mut().unwrap();
        match Command::from(line) {
            Command::Heading => output::write_heading(out, line)?,
            Command::Valid => questions::valid(out, memory::first(&self.bytes, self.size), line)?,
            Command::Malformed(name) => questions::malformed(out, name)?,
            Command::Order(x, y) => questions::order(out, x, y)?,
            Command::Search(parent, name) => questions::search(out, t, parent, name, line)?,
            Command::Free => questions::free(out, t, line)?,
            Command::Naming(record) => questions::naming(out, t, record, line)?,
            Command::Read(offset) => questions::read(out, t, offset, line)?,
            Command::Table => {
                t.fill(0);
                self.size = 8192;
            }
            Command::Size(size) => self.size = size,
            Command::Drop(place) => layers::change::drop_entry(t, place),
            Command::Write(offset, number) => layers::bytes::put_number(t, offset, number),
            Command::Item => encode::put_line(t, line).or_else(|error| error.write_to(out))?,
        }
        Ok(())
    }
}

// It reads by the kit's crate `io`, for the reason in text's output.rt.
fn main() {
    let mut script = io::large_buffer();
    let n = io::read_full(0, &mut script);
    let mut desk = Desk {
        bytes: [0; 8193],
        size: 8192,
    };
    let _ = script[..n]
        .split(|b| *b == b'\n')
        .filter(|line| !words::is_silent(line))
        .try_for_each(|line| desk.act(&mut Output::Standard, line));
}
