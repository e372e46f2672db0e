// The nodes in lent memory, one after another behind the head: one read, and the searches.
ghost use Rattle.std.specs.Prelude.{◌≡◌, ◌∷◌, ◌≤◌, length, drop, map};
ghost use Rattle.layers.specs.Items.{pieces};
ghost use Rattle.layers.specs.Names.{order_of};
ghost use Rattle.merge.specs.Nodes.{count_of, nodes_of, node_of, node_at, node_name, key_of, bytes_at};
ghost use Rattle.merge.specs.State.{first_word, is_number, is_child, has_parent, find_number, find_child, child_from, has_children, top_word, lead_of, place_for, Passed};

use crate::node::{Bytes, Node};
use crate::{head, node};
use std::cmp::Ordering;

// The nodes' bytes as they lie in the memory.
pub(crate) fn nodes(s: &[u8]) -> &[Bytes]
    ensures { (result.now ≡ pieces 52 (count_of s.now) (drop 12 s.now)) × (map node_of result.now ≡ nodes_of s.now) }
{
    let c = head::count(s);
    if c == 0 {
        return &[];
    }
    let (all, _) = s[12..].as_chunks::<52>();
    &all[..c]
}

// The node at place `j`; where there is none, no node: `node_at` of specs/, on which the calls' contracts stand, is that there, and no Option.
pub fn node_at(s: &[u8], j: usize) -> Node
    ensures { result ≡ node_at (nodes_of s.now) j }
{
    nodes(s).get(j).map_or_else(node::no_node, Node::from)
}

// The 52 bytes of the node at place `j`; where there is none, no bytes, as `bytes_at` of specs/ says.
pub fn bytes_at(s: &[u8], j: usize) -> &[u8]
    ensures { result.now ≡ bytes_at s.now j }
{
    let Some(b) = nodes(s).get(j) else {
        return &[];
    };
    b
}

// ---- a node's fields, in place; one function with an offset could not say in its clause which field it answers

#[tactic(auto, using(layers::proofs::Numbers::number_in), unfolding(crate::specs::Nodes::node_of))]
fn number_in(b: &Bytes) -> u32
    ensures { result ≡ (node_of b.now).number }
{
    layers::bytes::number_in::<u32>(b, 0)
}

#[tactic(auto, using(layers::proofs::Numbers::number_in), unfolding(crate::specs::Nodes::node_of))]
fn parent_in(b: &Bytes) -> u32
    ensures { result ≡ (node_of b.now).parent }
{
    layers::bytes::number_in::<u32>(b, 4)
}

#[tactic(auto, using(crate::proofs::StateLaws::name_cut))]
fn name_in(b: &Bytes) -> &[u8]
    ensures { result.now ≡ node_name (node_of b.now) }
{
    &b[24..24 + usize::from(b[15].min(28))]
}

// The name of the node at place `j`, in place; where there is none, no bytes, the name that `no_node` of specs/ has.
pub fn name_at(s: &[u8], j: usize) -> &[u8]
    ensures { result.now ≡ node_name (node_at (nodes_of s.now) j) }
{
    nodes(s).get(j).map_or(&[], name_in)
}

// ---- searches: each walks the nodes that there are

#[tactic(auto, unfolding(crate::specs::State::is_number))]
fn is_number(b: &Bytes, x: u64) -> bool
    ensures { result ≡ is_number x (node_of b.now) }
{
    u64::from(number_in(b)) == x
}

// The place of the node of number `x`.
pub fn find(s: &[u8], x: u64) -> Option<usize>
    ensures { result ≡ find_number (nodes_of s.now) x }
{
    nodes(s).iter().position(|b| is_number(b, x))
}

#[tactic(auto, unfolding(crate::specs::State::has_parent))]
fn has_parent(b: &Bytes, p: u64) -> bool
    ensures { result ≡ has_parent p (node_of b.now) }
{
    u64::from(parent_in(b)) == p
}

// The first place from `k` on of a child of `p`: a directory's children, one after another in table order.
pub fn child_from(s: &[u8], p: u64, k: usize) -> Option<usize>
    ensures { result ≡ child_from (nodes_of s.now) p k }
{
    let i = nodes(s).get(k..)?.iter().position(|b| has_parent(b, p))?;
    Some(k + i)
}

// Whether a node of parent `p` has a place.
pub fn has_children(s: &[u8], p: u64) -> bool
    ensures { result ≡ has_children (nodes_of s.now) p }
{
    child_from(s, p, 0).is_some()
}

#[tactic(auto, unfolding(crate::specs::State::is_child, crate::specs::State::has_parent))]
fn is_child(b: &Bytes, p: u64, x: &[u8]) -> bool
    ensures { result ≡ is_child p x.now (node_of b.now) }
{
    has_parent(b, p) && layers::names::same_name(name_in(b), x)
}

// The first 8 bytes that hold a node's name, as a number.
#[tactic(auto, using(layers::proofs::Numbers::number_in), unfolding(crate::specs::Nodes::node_of))]
fn word_in(b: &Bytes) -> u64
    ensures { result ≡ first_word (node_of b.now).name }
{
    layers::bytes::number_in::<u64>(b, 24)
}

// The same of a name in hand.
#[tactic(auto, using(layers::proofs::Numbers::number_in))]
fn word_of(x: &[u8]) -> u64
    requires { 8 ≤ length x.now }
    ensures { result ≡ first_word x.now }
{
    layers::bytes::number_in::<u64>(x, 0)
}

// For a name of at least 8 bytes, `w` being the first 8 as a number: a node whose name starts otherwise is told by one comparison.
#[tactic(auto, using(crate::proofs::WordLaws::word_other))]
fn is_child_by_word(b: &Bytes, p: u64, x: &[u8], w: u64) -> bool
    requires { (8 ≤ length x.now) × (w ≡ first_word x.now) }
    ensures { result ≡ is_child p x.now (node_of b.now) }
{
    word_in(b) == w && is_child(b, p, x)
}

// The place of the node that `p` has under the name `x`.
pub fn child(s: &[u8], p: u64, x: &[u8]) -> Option<usize>
    ensures { result ≡ find_child (nodes_of s.now) p x.now }
{
    if x.len() < 8 {
        return nodes(s).iter().position(|b| is_child(b, p, x));
    }
    let w = word_of(x);
    nodes(s).iter().position(|b| is_child_by_word(b, p, x, w))
}

// ---- the place of a new node

// The first 8 bytes that hold a node's name, the highest first: such numbers are in the order of the names.
#[tactic(auto, unfolding(crate::specs::Nodes::node_of))]
fn lead_in(b: &Bytes) -> u64
    ensures { result ≡ top_word (node_of b.now).name }
{
    layers::bytes::be_in::<u64>(b, 24)
}

// The same of a name in hand; 0, by `lead_of` of specs/, for one of fewer than 8 bytes.
#[tactic(auto, unfolding(crate::specs::State::lead_of))]
pub(crate) fn lead_of(x: &[u8]) -> u64
    ensures { result ≡ lead_of x.now }
{
    if x.len() < 8 {
        return 0;
    }
    layers::bytes::be_in::<u64>(x, 0)
}

// How the name `x`, of first bytes `w`, stands to a node's: most are told by one comparison.
fn order_named(b: &Bytes, x: &[u8], w: u64) -> Ordering
    requires { w ≡ lead_of x.now }
    ensures { result ≡ order_of x.now (node_name (node_of b.now)) }
{
    if 8 <= x.len() && 8 <= b[15] {
        let v = lead_in(b);
        // Two tests, as `w.cmp(&v)` takes a sixth more of a search's time.
        if v < w {
            return Ordering::Greater;
        }
        if w < v {
            return Ordering::Less;
        }
    }
    layers::names::compare(x, name_in(b))
}

// How the name `x` in `p` stands to a node: by the parent's number, then by name. A test and no `then_with`, as halving with that takes nearly twice the time.
#[tactic(auto, unfolding(layers::specs::Names::order_of))]
pub(crate) fn order_at(b: &Bytes, p: u64, x: &[u8], w: u64) -> Ordering
    requires { w ≡ lead_of x.now }
    ensures { result ≡ order_of (p ∷ x.now) (key_of (node_of b.now)) }
{
    let d = u64::from(parent_in(b));
    if p == d {
        return order_named(b, x, w);
    }
    p.cmp(&d)
}

// The place where the name `x` in `p` belongs, or that it stands there; the first `k` nodes come before it.
// `Passed` is asked by contracts and held by no type: such a value would lend the state that `put_new_from` writes.
pub(crate) fn place_from(s: &[u8], p: u32, x: &[u8], k: usize) -> Option<usize>
    requires { Passed (nodes_of s.now) p x.now k }
    ensures { result ≡ place_for (nodes_of s.now) p x.now }
{
    let ns = nodes(s);
    let w = lead_of(x);
    let q = u64::from(p);
    for j in k..ns.len() {
        match order_at(&ns[j], q, x, w) {
            Ordering::Less => return Some(j),
            Ordering::Equal => return None,
            Ordering::Greater => {}
        }
    }
    Some(ns.len())
}
