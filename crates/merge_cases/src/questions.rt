// The nodes over their layers, asked and changed, each by its line.
use crate::tables::Tables;
use merge::head::Head;
use merge::load::LoadError;
use merge::node::Node;
use std::io::{Result, Write};
use text::memory;
use text::stacks::Stack;

// A name's bytes, which need not be text; the root's is empty and prints as a slash.
fn write_name(out: &mut impl Write, name: &[u8]) -> Result<()> {
    out.write_all(if name.is_empty() { b"/" } else { name })
}

fn write_node(out: &mut impl Write, n: Node) -> Result<()> {
    let stack = Stack(memory::first(&n.stack, usize::from(n.depth)));
    write!(out, "  {} ", n.number)?;
    write_name(out, memory::first(&n.name, usize::from(n.length)))?;
    write!(out, " in {}: count {}, {stack}", n.parent, n.count)?;
    if n.white != 0 {
        out.write_all(b", whiteout")?;
    }
    if n.loaded != 0 {
        out.write_all(b", loaded")?;
    }
    out.write_all(b"\n")
}

// `load NUMBER`
pub fn load(out: &mut impl Write, state: &mut [u8], tables: &Tables, number: u64) -> Result<()> {
    let Some(j) = merge::state::find(state, number) else {
        return writeln!(out, "no node {number}");
    };
    match merge::load::load_directory(state, tables.layers(), j) {
        Ok(()) => writeln!(out, "load of {number}: done"),
        Err(LoadError::NoRoom) => writeln!(out, "load of {number}: 23"),
    }
}

// The root's node, not loaded yet: by the functions of merge, which is what these cases try; `import::root_node` is of calls.
fn root_node(tables: &Tables) -> Node {
    let stack = merge::stacks::root_stack(tables.layers());
    let n = merge::load::new_node(0, stack, b"");
    n.with_number(1).counted().with_stack(stack.pairs, n.depth)
}

// `root`: a state with the root alone, then its load.
pub fn root(out: &mut impl Write, state: &mut [u8], tables: &Tables) -> Result<()> {
    state.fill(0);
    merge::head::put_head(state, Head { next: 2, count: 0 });
    merge::change::put_in(state, root_node(tables));
    load(out, state, tables, 1)
}

// `stack NAME`: the merged stack of a name of the root.
pub fn stack(out: &mut impl Write, tables: &Tables, name: &[u8]) -> Result<()> {
    let layers = tables.layers();
    let root = merge::stacks::root_stack(layers);
    let stack = merge::stacks::new_from_real_inodes(layers, root.pairs, root.length, name);
    write_name(out, name)?;
    if stack.length == 0 {
        return out.write_all(b": none at all, 22\n");
    }
    let shown = Stack(memory::first(&stack.pairs, stack.length));
    let mark = if stack.whiteout { " whiteout" } else { "" };
    writeln!(out, ": {shown}{mark}")
}

// `nodes`: every node, in table order.
pub fn nodes(out: &mut impl Write, state: &[u8]) -> Result<()> {
    for j in 0..merge::head::count(state) {
        write_node(out, merge::state::node_at(state, j))?;
    }
    Ok(())
}

// `count`
pub fn count(out: &mut impl Write, state: &[u8]) -> Result<()> {
    let nodes = merge::head::count(state);
    let next = merge::head::next_number(state);
    writeln!(out, "{nodes} nodes, next number {next}")
}

// `next NUMBER`: the next number to give, set from outside.
pub fn set_next(state: &mut [u8], next: u64) {
    let head = merge::head::head_of(state);
    merge::head::put_head(state, Head { next, ..head });
}

// `look NUMBER`: a lookup of the node, counted.
pub fn look(state: &mut [u8], number: u64) {
    if let Some(j) = merge::state::find(state, number) {
        let n = merge::state::node_at(state, j).counted();
        merge::change::put_node(state, j, n);
    }
}
