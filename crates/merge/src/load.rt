// Loading a directory: a node for each merged name that has none.
ghost use Rattle.std.specs.Prelude.{◌≡◌, ◌≤◌, map, length, take, Some};
ghost use Rattle.layers.specs.Search.{one};
ghost use Rattle.layers.specs.Sorted.{Sorted};
ghost use Rattle.merge.specs.Tables.{place_name};
ghost use Rattle.merge.specs.Nodes.{nodes_of};
ghost use Rattle.merge.specs.State.{Passed, PassedNext};
ghost use Rattle.merge.specs.Scan.{scanned};
ghost use Rattle.merge.specs.Stacks.{merged_stack};
ghost use Rattle.merge.specs.Tops.{top_place, Topmost};
ghost use Rattle.merge.specs.Changes.{new_bytes};
ghost use Rattle.merge.specs.Load.{new_node, has_none, add_names, is_loaded, suffices, load_answer, load_bytes, place_has_none, KeptPlaces, ToAdd};

use crate::node::Node;
use crate::stacks::{Pair, Stack};
use crate::tables::Layers;
use crate::{change, head, scan, stacks, state};

// Why a directory is not loaded.
#[derive(Clone, Copy)]
pub enum LoadError {
    // Node places or numbers don't suffice.
    NoRoom,
}

// ---- a new node

// The node of the name `x` below `p`, its number yet to be given.
pub fn new_node(p: u32, st: Stack, x: &[u8]) -> Node
    ensures { result ≡ new_node p st x.now }
{
    let stack = st.pairs;
    let name = layers::names::padded(x);
    Node {
        number: 0,
        parent: p,
        count: 1,
        white: u8::from(st.whiteout),
        loaded: 0,
        depth: layers::bytes::at_most(4, st.length),
        length: layers::bytes::at_most(28, x.len()),
        stack,
        name,
    }
}

// ---- the names that have no node

fn has_none(s: &[u8], p: u64, x: &[u8]) -> bool
    ensures { result ≡ has_none (nodes_of s.now) p x.now }
{
    state::child(s, p, x).is_none()
}

// Of the first `n` places keeps those, in place, whose name has no node below the node of number `x`; answers how many.
fn keep_missing(s: &[u8], ls: Layers<'_>, x: u64, p: &mut [u16; 512], n: usize) -> usize
    requires { n ≤ 512 }
    ensures { KeptPlaces (place_has_none ls.entry.upper.now ls.entry.lower.now (nodes_of s.now) x) p.old n result p.new }
{
    let mut m = 0;
    for i in 0..n {
        let q = p[i];
        if has_none(s, x, ls.place_name(q)) {
            p[m] = q;
            m += 1;
        }
    }
    m
}

// ---- nodes for them

// A node for the name `x`, found at the place `q`, below the node of number `p`, whose stack is the first `d` of `a`; answers how many nodes come before every later name.
fn add_name(
    s: &mut [u8],
    ls: Layers<'_>,
    p: u32,
    a: [Pair; 4],
    d: usize,
    x: &[u8],
    q: u16,
    k: usize,
) -> usize
    requires { (length x.now ≤ 28) × Passed (nodes_of s.old) p x.now k × (x.now ≡ place_name ls.upper.now ls.lower.now q) × (top_place ls.upper.now ls.lower.now x.now (scanned ls.upper.now ls.lower.now (take d a)) ≡ Some q) }
    ensures { (s.new ≡ new_bytes s.old (new_node p (merged_stack ls.entry.upper.now ls.entry.lower.now (take d a) x.now) x.now)) × PassedNext (nodes_of s.new) p x.now result }
{
    let st = stacks::new_from_place(ls, a, d, x, q);
    let n = new_node(p, st, x);
    change::put_new_from(s, n, k)
}

fn add_names(s: &mut [u8], ls: Layers<'_>, p: u32, a: [Pair; 4], d: usize, q: &[u16; 512], m: usize)
    requires { (m ≤ 512) × Sorted (λ x. x) (map (place_name ls.upper.now ls.lower.now) (take m q.now)) × Topmost ls.upper.now ls.lower.now (take d a) q.now m }
    ensures { s.new ≡ add_names ls.entry.upper.now ls.entry.lower.now p (take d a) (map (place_name ls.entry.upper.now ls.entry.lower.now) (take m q.now)) s.old }
{
    let mut k = 0;
    for i in 0..m {
        k = add_name(s, ls, p, a, d, ls.place_name(q[i]), q[i], k);
    }
}

// ---- the load

pub fn is_loaded(n: Node) -> bool
    ensures { result ≡ is_loaded n }
{
    n.loaded != 0
}

pub fn has_room(s: &[u8], k: usize) -> bool
    ensures { result ≡ suffices s.now k }
{
    if head::room(s) < k {
        return false;
    }
    k as u64 <= head::numbers_left(s)
}

// The places that stand for the names to add below the node `n`, put into `p`; answers how many.
fn to_add(s: &[u8], ls: Layers<'_>, n: Node, p: &mut [u16; 512]) -> usize
    ensures { ToAdd ls.entry.upper.now ls.entry.lower.now s.now n result p.new }
{
    let k = scan::scan_childrens(ls, n.stack, usize::from(n.depth), p);
    let x = u64::from(n.number);
    if state::has_children(s, x) {
        return keep_missing(s, ls, x, p, k);
    }
    k
}

// Loads the directory whose node stands at place `j`.
pub fn load_directory(s: &mut [u8], ls: Layers<'_>, j: usize) -> Result<(), LoadError>
    ensures { (result ≡ load_answer ls.entry.upper.now ls.entry.lower.now s.old j) × (s.new ≡ load_bytes ls.entry.upper.now ls.entry.lower.now s.old j) }
{
    let n = state::node_at(s, j);
    if is_loaded(n) {
        return Ok(());
    }
    let mut p = [0u16; 512];
    let m = to_add(s, ls, n, &mut p);
    if has_room(s, m) {
        change::put_node(s, j, n.with_loaded(1));
        add_names(s, ls, n.number, n.stack, usize::from(n.depth), &p, m);
        return Ok(());
    }
    Err(LoadError::NoRoom)
}
