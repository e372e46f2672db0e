// What a call left: the upper table's used items, the next number and every node.
use crate::print::{PlacedEntry, PlacedRecord, ShownNode};
use layers::items::Table;
use std::io::{Result, Write};

fn show_table(out: &mut impl Write, t: &Table) -> Result<()> {
    for i in 1..129 {
        let r = layers::items::record_at(t, i);
        if r.number != 0 {
            writeln!(out, "  {}", PlacedRecord(i, r))?;
        }
    }
    for j in 0..128 {
        let e = layers::items::entry_at(t, j);
        if e.parent != 0 {
            writeln!(out, "  {}", PlacedEntry(j, e))?;
        }
    }
    Ok(())
}

pub fn show(out: &mut impl Write, state: &[u8], upper: &[u8]) -> Result<()> {
    if let Some(t) = upper.as_array() {
        show_table(out, t)?;
    }
    writeln!(out, "  next {}", merge::head::next_number(state))?;
    for j in 0..merge::head::count(state) {
        writeln!(out, "  {}", ShownNode(merge::state::node_at(state, j)))?;
    }
    Ok(())
}
