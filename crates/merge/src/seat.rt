// Where a name below a directory has its node, or where a new node belongs: by halving, as the nodes stand in order.
ghost use Rattle.std.specs.Prelude.{◌≡◌};
ghost use Rattle.merge.specs.Nodes.{nodes_of};
ghost use Rattle.merge.specs.Seats.{seat_of, holder};

use crate::state;
use std::cmp::Ordering;

// The seat of the name `x` below the node of number `p`: the place of its node, or else where a new one belongs.
// A loop and no `binary_search_by`: that promises nothing where nodes are out of order, and `seat_of` of specs/ speaks of any bytes.
pub fn seat_of(s: &[u8], p: u64, x: &[u8]) -> Result<usize, usize>
    ensures { result ≡ seat_of (nodes_of s.now) p x.now }
{
    let ns = state::nodes(s);
    let w = state::lead_of(x);
    let mut lo: usize = 0;
    let mut hi = ns.len();
    while lo < hi {
        let mid = lo + (hi - lo) / 2;
        match state::order_at(&ns[mid], p, x, w) {
            Ordering::Less => hi = mid,
            Ordering::Equal => return Ok(mid),
            Ordering::Greater => lo = mid + 1,
        }
    }
    Err(lo)
}

// The place of the name's node.
#[tactic(auto, unfolding(crate::specs::Seats::holder))]
pub fn holder(t: Result<usize, usize>) -> Option<usize>
    ensures { result ≡ holder t }
{
    t.ok()
}
