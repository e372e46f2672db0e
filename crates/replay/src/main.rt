// Replays calls on layer tables, both written as text, and prints each answer with what the call left. docs/REPLAY.md has the form.
#![tactic(auto)]

mod answer;
mod command;
mod print;
mod reads;
mod show;
mod writes;

use command::{Call, Command, Lengths};
use std::io::{Result, Write};
use text::output::{self, Output};
use text::{encode, memory, words};

// The memory that calls are lent parts of, the layer that the next lines fill, and whether what a call left is shown.
#[derive(Drop)]
struct Desk {
    state: [u8; 13325],
    upper: [u8; 8193],
    lower: [u8; 32768],
    lengths: Lengths,
    layer: usize,
    shown: bool,
}

impl Desk {
    fn new() -> Desk {
        Desk {
            state: [0; 13325],
            upper: [0; 8193],
            lower: [0; 32768],
            lengths: Lengths {
                state: 13324,
                upper: 8192,
                lower: 0,
            },
            layer: 0,
            shown: true,
        }
    }

    // Says the line, makes the call and shows what it left. The slices go one by one: a struct that lends them gets no proof.
    fn replay(&mut self, out: &mut impl Write, line: &[u8], call: Call) -> Result<()> {
        let lengths = self.lengths;
        let shown = self.shown;
        let state = memory::first_mut(&mut self.state, lengths.state);
        let upper = memory::first_mut(&mut self.upper, lengths.upper);
        let lower = memory::first(&self.lower, lengths.lower);
        out.write_all(b"> ")?;
        output::write_line(out, line)?;
        match call {
            Call::Read(reading) => reading.make(out, state, upper, lower)?,
            Call::Write(writing) => writing.make(out, state, upper, lower)?,
        }
        if shown {
            show::show(out, state, upper)?;
        }
        Ok(())
    }

    // A line that fills a table goes to the layer in hand.
    fn fill(&mut self, out: &mut impl Write, line: &[u8]) -> Result<()> {
        encode::put_layer_line(&mut self.upper, &mut self.lower, self.layer, line).or_else(
            |error| error.write_to(out),
        )
    }

    // All tables cleared; whether there is an upper layer, and how many lower ones.
    fn set_layers(&mut self, upper: bool, lower: usize) {
        self.upper.fill(0);
        self.lower.fill(0);
        self.lengths = Lengths {
            state: 13324,
            upper: if upper { 8192 } else { 0 },
            lower: if lower <= 4 { 8192 * lower } else { 0 },
        };
        self.layer = 0;
        self.shown = true;
    }

    // Does what a line says.
    fn act(&mut self, out: &mut impl Write, line: &[u8]) -> Result<()> {
        match Command::from(line) {
            Command::Heading => output::write_heading(out, line)?,
            Command::Layers { upper, lower } => self.set_layers(upper, lower),
            Command::Layer(layer) => self.layer = layer,
            Command::Lengths(lengths) => self.lengths = lengths,
            Command::Show(shown) => self.shown = shown,
            Command::Next(next) => layers::bytes::put_number(&mut self.state, 0, next),
            Command::Call(call) => self.replay(out, line, call)?,
            Command::Item => self.fill(out, line)?,
        }
        Ok(())
    }
}

// It reads by the kit's crate `io`, for the reason in text's output.rt.
fn main() {
    let mut script = io::large_buffer();
    let n = io::read_full(0, &mut script);
    let mut desk = Desk::new();
    let _ = script[..n]
        .split(|b| *b == b'\n')
        .filter(|line| !words::is_silent(line))
        .try_for_each(|line| desk.act(&mut Output::Standard, line));
}
