// A node of the lent state changed, put in at its place by parent and name, and taken out.
ghost use Rattle.std.specs.Prelude.{◌≡◌, ◌+◌, ◌*◌, ◌≤◌, ◌<◌, length, take, replicate, is_some, unwrap_or};
ghost use Rattle.layers.specs.Bytes.{over, part};
ghost use Rattle.merge.specs.Nodes.{count_of, nodes_of, node_name};
ghost use Rattle.merge.specs.State.{place_for, Passed};
ghost use Rattle.merge.specs.Changes.{put_bytes, inserted_bytes, taken_bytes, spot_for, put_in_bytes, new_spot, new_bytes, behind, seat_spot, seated_number, seated_bytes};

use crate::head::Head;
use crate::node::Node;
use crate::{head, node, state};

// Every byte 0: a state that has no node.
pub fn clear(s: &mut [u8])
    ensures { s.new ≡ replicate (length s.old) 0 }
{
    s.fill(0);
}

// The node at place `j` changed; where there is none, nothing changes.
#[tactic(auto, unfolding(crate::specs::Changes::put_bytes))]
pub fn put_node(s: &mut [u8], j: usize, n: Node)
    ensures { s.new ≡ put_bytes s.old j n }
{
    let c = head::count(s);
    if c <= j {
        return;
    }
    node::lay_node(s, 12 + 52 * j, n);
}

// ---- a node put in

// The place for the node, where a further one fits and its parent has none of its name; the first `k` nodes come before it.
#[tactic(auto, unfolding(crate::specs::Changes::spot_for))]
fn spot_from(s: &[u8], n: Node, k: usize) -> Option<usize>
    requires { Passed (nodes_of s.now) n.parent (node_name n) k }
    ensures { result ≡ spot_for s.now n }
{
    if head::is_full(s) {
        return None;
    }
    state::place_from(s, n.parent, n.name_bytes(), k)
}

// The same, from the first node on: `Passed` of 0 nodes holds of itself, so a caller of this one proves nothing.
pub fn spot_for(s: &[u8], n: Node) -> Option<usize>
    ensures { result ≡ spot_for s.now n }
{
    spot_from(s, n, 0)
}

#[tactic(auto, using(crate::proofs::ShiftLaws::inserted_in_tail))]
fn insert(s: &mut [u8], k: usize, n: Node, h: Head)
    requires { (k ≤ count_of s.old) × (52 * count_of s.old + 64 ≤ length s.old) }
    ensures { s.new ≡ inserted_bytes s.old k n h }
{
    let c = head::count(s);
    let a = 12 + 52 * k;
    // The part moved starts at the slice's first byte: to the compiler that is a memmove.
    s[a..].copy_within(..52 * (c - k), 52);
    node::lay_node(s, a, n);
    head::put_head(s, h);
}

// The node put in at its place; where none is left, or its parent has one of its name, nothing changes.
pub fn put_in(s: &mut [u8], n: Node)
    ensures { s.new ≡ put_in_bytes s.old n }
{
    let Some(k) = spot_for(s, n) else {
        return;
    };
    let h = head::head_of(s).more();
    insert(s, k, n, h);
}

// The node put in at its place with the next number, the first `k` nodes coming before it; answers the place behind it, `k` where no number or no place is left:
// no Option, as the next search starts there either way (`behind` of specs/).
pub(crate) fn put_new_from(s: &mut [u8], n: Node, k: usize) -> usize
    requires { Passed (nodes_of s.old) n.parent (node_name n) k }
    ensures { (result ≡ behind k (new_spot s.old n)) × (s.new ≡ new_bytes s.old n) }
{
    let Ok(x) = u32::try_from(head::next_number(s)) else {
        return k;
    };
    let Some(j) = spot_from(s, n, k) else {
        return k;
    };
    let h = head::head_of(s).more().numbered();
    insert(s, j, n.with_number(x), h);
    j + 1
}

// The node put in at place `k` with the next number; answers the number, where one and such a place are left.
pub fn put_new_at(s: &mut [u8], n: Node, k: usize) -> Option<u32>
    ensures { (is_some result ≡ is_some (seat_spot s.old k)) × (unwrap_or result 0 ≡ seated_number s.old k) × (s.new ≡ seated_bytes s.old n k) }
{
    let Ok(x) = u32::try_from(head::next_number(s)) else {
        return None;
    };
    if head::is_full(s) || head::count(s) < k {
        return None;
    }
    let h = head::head_of(s).more().numbered();
    insert(s, k, n.with_number(x), h);
    Some(x)
}

// ---- a node taken out

// The node at place `k` taken out; where there is none, nothing changes.
pub fn take_out(s: &mut [u8], k: usize)
    ensures { s.new ≡ taken_bytes s.old k }
{
    let c = head::count(s);
    if c <= k {
        return;
    }
    let h = head::head_of(s).fewer();
    let a = 12 + 52 * k;
    let n = 52 * (c - 1 - k);
    s[a..].copy_within(52..52 + n, 0);
    layers::bytes::lay(s, a + n, &[0; 52]);
    head::put_head(s, h);
}
