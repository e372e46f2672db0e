// The node that a call names by its number, and whether it is a live directory.
ghost use Rattle.std.specs.Prelude.{◌≡◌, Ok};
ghost use Rattle.calls.specs.Refusal.{after_tests};
ghost use Rattle.calls.specs.Parents.{is_white, is_directory_node, parent_tests, place_of, place_numbered, numbered, load_tests};
ghost use Rattle.merge.specs.Nodes.{nodes_of, node_at};
ghost use Rattle.merge.specs.Load.{is_loaded, load_bytes};

use crate::refusal::Refusal;
use merge::node::Node;
use merge::tables::Layers;
use merge::{head, load, scan, state};

pub fn is_white(n: Node) -> bool
    ensures { result ≡ is_white n }
{
    n.white != 0
}

// Whether the node at place `k` is loaded.
pub fn is_loaded(s: &[u8], k: usize) -> bool
    ensures { result ≡ is_loaded (node_at (nodes_of s.now) k) }
{
    load::is_loaded(state::node_at(s, k))
}

// A node is a directory where its top record is one.
pub fn is_directory(ls: Layers<'_>, n: Node) -> bool
    ensures { result ≡ is_directory_node ls.entry.upper.now ls.entry.lower.now n }
{
    if n.depth == 0 {
        return false;
    }
    let p = n.stack[0];
    let Some(t) = ls.table(usize::from(p.layer)) else {
        return false;
    };
    scan::is_walked(t, p.number)
}

// The place of the live directory of number `x`: 2 unknown, 2 whiteout, 20.
pub fn parent_place(s: &[u8], ls: Layers<'_>, x: u64) -> Result<usize, Refusal>
    ensures { result ≡ after_tests (parent_tests ls.entry.upper.now ls.entry.lower.now s.now x) (Ok (place_numbered s.now x)) }
{
    let k = state::find(s, x).ok_or(Refusal::Enoent)?;
    let n = state::node_at(s, k);
    if is_white(n) {
        return Err(Refusal::Enoent);
    }
    if is_directory(ls, n) {
        return Ok(k);
    }
    Err(Refusal::Enotdir)
}

// Loads the directory whose node stands at place `k`; where places or numbers don't suffice, 23.
pub fn load_at(s: &mut [u8], ls: Layers<'_>, k: usize) -> Result<usize, Refusal>
    ensures { (result ≡ after_tests (load_tests ls.entry.upper.now ls.entry.lower.now s.old k) (Ok k)) × (s.new ≡ load_bytes ls.entry.upper.now ls.entry.lower.now s.old k) }
{
    load::load_directory(s, ls, k)?;
    Ok(k)
}

// ---- by number, where a node that is not there is no node: so the definitions of specs/Parents answer, and no Option

// The place found; where nothing is, the place behind the last.
pub(crate) fn place_of(s: &[u8], f: Option<usize>) -> usize
    ensures { result ≡ place_of (nodes_of s.now) f }
{
    f.unwrap_or(head::count(s))
}

// The place of the node of number `x`; where there is none, the place behind the last.
pub(crate) fn place_numbered(s: &[u8], x: u64) -> usize
    ensures { result ≡ place_numbered s.now x }
{
    place_of(s, state::find(s, x))
}

// The node of number `x`; where there is none, no node.
pub(crate) fn node_numbered(s: &[u8], x: u64) -> Node
    ensures { result ≡ numbered s.now x }
{
    state::node_at(s, place_numbered(s, x))
}
