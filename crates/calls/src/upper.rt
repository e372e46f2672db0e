// What a creation, a copy-up and a link write: a record and an entry of the upper layer, and the stack of the name's node.
// Records and nodes are numbered from 1: 0 says that there is none, in `new_record` and `named_number` of specs/ and so in the answers here.
ghost use Rattle.std.specs.Prelude.{◌≡◌, ◌<◌, length};
ghost use Rattle.calls.specs.Parents.{top_of};
ghost use Rattle.merge.specs.Stacks.{pair};
ghost use Rattle.calls.specs.Upper.{up, in_upper, new_record, add_new, top_record, emptied, without_whiteout, upper_alone, given_record, named_state, named_number};
ghost use Rattle.merge.specs.Nodes.{nodes_of, node_at};

use layers::items;
use layers::items::{Record, Table};
use merge::node::Node;
use merge::stacks::{Pair, Stack};
use merge::tables::Layers;
use merge::{change, load, state};

// A record of the upper layer, as stacks hold it.
pub(crate) fn upper_pair(c: u8) -> Pair
    ensures { result ≡ pair 0 c }
{
    Pair {
        layer: 0,
        number: c,
    }
}

// The record that a node has on top.
pub(crate) fn top_of(n: Node) -> Pair
    ensures { result ≡ top_of n }
{
    n.stack[0]
}

pub(crate) fn in_upper(n: Node) -> bool
    ensures { result ≡ in_upper n }
{
    top_of(n).layer == 0
}

pub(crate) fn top_record(ls: Layers<'_>, n: Node) -> Record
    ensures { result ≡ top_record ls.entry.upper.now ls.entry.lower.now n }
{
    let p = top_of(n);
    let Some(t) = ls.table(usize::from(p.layer)) else {
        return items::no_record();
    };
    items::record_at(t, usize::from(p.number))
}

// ---- a new record with its entry

// A new record, and its entry under the name `x` in the directory `d`; the record's number, 0 where none is free (`new_record` of specs/).
pub(crate) fn add_new(t: &mut Table, d: u8, x: &[u8], r: Record) -> u8
    ensures { (result ≡ new_record t.old) × (t.new ≡ add_new d x.now r t.old) }
{
    let c = layers::change::add_record(t, r).unwrap_or(0) as u8;
    let e = layers::change::entry_naming(d, x, c);
    layers::change::add_entry(t, e);
    c
}

// ---- a whiteout deleted

// The node found has no record until the call gives it a new one.
fn empty(s: &mut [u8], f: Option<usize>)
    ensures { s.new ≡ emptied f s.old }
{
    let Some(j) = f else {
        return;
    };
    let z = upper_pair(0);
    let n = state::node_at(s, j).with_stack([z; 4], 0);
    change::put_node(s, j, n);
}

// The whiteout's entry at the place `e` goes, its record with its last entry; `f` is where the name's node stands.
pub(crate) fn delete_whiteout(s: &mut [u8], upper: &mut Table, e: Option<usize>, f: Option<usize>)
    ensures { (upper.new ≡ (without_whiteout e f (up upper.old s.old)).table) × (s.new ≡ (without_whiteout e f (up upper.old s.old)).state) }
{
    let Some(j) = e else {
        return;
    };
    layers::change::drop_entry(upper, j);
    empty(s, f);
}

// ---- the name's node

// A node of the name `x` below `p` whose stack is the upper record `c` alone, its number yet to be given.
fn upper_alone(p: u32, x: &[u8], c: u8) -> Node
    ensures { result ≡ upper_alone p x.now c }
{
    let z = upper_pair(0);
    let a = [upper_pair(c), z, z, z];
    let st = Stack {
        pairs: a,
        length: 1,
        whiteout: false,
    };
    load::new_node(p, st, x)
}

// The node at place `j` gets the upper record `c` alone; its number, which is 0 where there is no node (`named_number` of specs/).
fn give_record(s: &mut [u8], j: usize, c: u8) -> u32
    ensures { (result ≡ (node_at (nodes_of s.old) j).number) × (s.new ≡ given_record s.old j c) }
{
    let n = state::node_at(s, j);
    change::put_node(s, j, n.alone(upper_pair(c)).with_white(0));
    n.number
}

// The name's node gets the upper record `c` alone, or a new node is put in at the name's seat; its number.
pub(crate) fn name_node(s: &mut [u8], t: Result<usize, usize>, p: u32, x: &[u8], c: u8) -> u32
    ensures { (result ≡ named_number t p x.now c s.old) × (s.new ≡ named_state t p x.now c s.old) }
{
    match t {
        Ok(j) => give_record(s, j, c),
        Err(k) => change::put_new_at(s, upper_alone(p, x, c), k).unwrap_or(0),
    }
}
