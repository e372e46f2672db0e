// Runs the worked cases of the merge and the nodes: layers come as text, and each question prints its answer.
#![tactic(auto)]

mod command;
mod questions;
mod tables;

use command::Command;
use std::io::{Result, Write};
use tables::Tables;
use text::output::{self, Output};
use text::words;

// The state and the tables, and the layer that the next lines fill.
#[derive(Drop)]
struct Desk {
    state: [u8; 13324],
    tables: Tables,
    layer: usize,
}

impl Desk {
    // Does what a line says.
    fn act(&mut self, out: &mut impl Write, line: &[u8]) -> Result<()> {
        let Desk { state, tables, .. } = self;
        match Command::from(line) {
            Command::Heading => output::write_heading(out, line)?,
            Command::Layers { upper, lower } => tables.set_layers(upper, lower),
            Command::Layer(layer) => self.layer = layer,
            Command::Root => questions::root(out, state, tables)?,
            Command::Load(number) => questions::load(out, state, tables, number)?,
            Command::Look(number) => questions::look(state, number),
            Command::Forget { number, amount } => {
                merge::forget::forget_one(state, number, amount);
            }
            Command::Next(next) => questions::set_next(state, next),
            Command::Nodes => questions::nodes(out, state)?,
            Command::Count => questions::count(out, state)?,
            Command::Stack(name) => questions::stack(out, tables, name)?,
            Command::Item => tables
                .put_line(self.layer, line)
                .or_else(|error| error.write_to(out))?,
        }
        Ok(())
    }
}

// It reads by the kit's crate `io`, for the reason in text's output.rt.
fn main() {
    let mut script = io::large_buffer();
    let n = io::read_full(0, &mut script);
    let mut desk = Desk {
        state: [0; 13324],
        tables: Tables::new(),
        layer: 0,
    };
    let _ = script[..n]
        .split(|b| *b == b'\n')
        .filter(|line| !words::is_silent(line))
        .try_for_each(|line| desk.act(&mut Output::Standard, line));
}
