// The counts of a directory's live and whiteout children.
ghost use Rattle.std.specs.Prelude.{◌≡◌, ◌≤◌, Ok};
ghost use Rattle.merge.specs.Nodes.{nodes_of};
ghost use Rattle.calls.specs.Refusal.{after_tests};
ghost use Rattle.calls.specs.Parents.{place_numbered};
ghost use Rattle.calls.specs.Count.{child_counts, weight, count_before, count_spec};

use crate::refusal::Refusal;
use crate::{lengths, parent};
use merge::node::Node;
use merge::tables::Layers;
use merge::{head, state};

fn weight(n: Node, x: u64) -> usize
    ensures { (result ≡ weight x n) × (result ≤ 65536) }
{
    if u64::from(n.parent) != x {
        return 0;
    }
    if parent::is_white(n) {
        return 65536;
    }
    1
}

// The children of `x` among the nodes that there are.
pub fn child_counts(s: &[u8], x: u64) -> usize
    ensures { result ≡ child_counts (nodes_of s.now) x }
{
    let mut n = 0;
    for j in 0..head::count(s) {
        n += weight(state::node_at(s, j), x);
    }
    n
}

// The tests before the load; the directory's place. `lookup_place` tests a name as well; what the two share are `lengths_fit` and `parent_place`.
fn counted_place(s: &[u8], ls: Layers<'_>, x: u64) -> Result<usize, Refusal>
    ensures { result ≡ after_tests (count_before ls.entry.upper.now ls.entry.lower.now s.now x) (Ok (place_numbered s.now x)) }
{
    if !lengths::lengths_fit(s, ls) {
        return Err(Refusal::Einval);
    }
    parent::parent_place(s, ls, x)
}

pub fn count_entries_and_whiteout(s: &mut [u8], ls: Layers<'_>, x: u64) -> Result<usize, Refusal>
    ensures { (result ≡ (count_spec ls.entry.upper.now ls.entry.lower.now s.old x).answer) × (s.new ≡ (count_spec ls.entry.upper.now ls.entry.lower.now s.old x).state) }
{
    let k = counted_place(s, ls, x)?;
    parent::load_at(s, ls, k)?;
    Ok(child_counts(s, x))
}
