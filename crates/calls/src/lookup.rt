// Lookup: the node of a live name, its count raised.
ghost use Rattle.std.specs.Prelude.{◌≡◌, cond, Ok};
ghost use Rattle.calls.specs.Refusal.{after_tests, passed};
ghost use Rattle.calls.specs.Parents.{place_numbered};
ghost use Rattle.calls.specs.Lookup.{child_named, lookup_before, name_tests, counted_state, lookup_spec};

use crate::refusal::Refusal;
use crate::{lengths, parent};
use merge::tables::Layers;
use merge::{change, seat, state};

// The tests before the load; the parent's place.
fn lookup_place(s: &[u8], ls: Layers<'_>, p: u64, x: &[u8]) -> Result<usize, Refusal>
    ensures { result ≡ after_tests (lookup_before ls.entry.upper.now ls.entry.lower.now s.now p x.now) (Ok (place_numbered s.now p)) }
{
    if !lengths::lengths_fit(s, ls) {
        return Err(Refusal::Einval);
    }
    if layers::names::malformed(x) {
        return Err(Refusal::Einval);
    }
    parent::parent_place(s, ls, p)
}

// The number of the live node that `p` has under the name `x`, its count raised.
fn count_lookup(s: &mut [u8], p: u64, x: &[u8]) -> Result<usize, Refusal>
    ensures { (result ≡ after_tests (name_tests s.old p x.now) (Ok (child_named s.old p x.now).number)) × (s.new ≡ cond (passed (name_tests s.old p x.now)) (counted_state s.old p x.now) s.old) }
{
    let k = seat::holder(seat::seat_of(s, p, x)).ok_or(Refusal::Enoent)?;
    let n = state::node_at(s, k);
    if parent::is_white(n) {
        return Err(Refusal::Enoent);
    }
    change::put_node(s, k, n.counted());
    Ok(n.number as usize)
}

pub fn lookup(s: &mut [u8], ls: Layers<'_>, p: u64, x: &[u8]) -> Result<usize, Refusal>
    ensures { (result ≡ (lookup_spec ls.entry.upper.now ls.entry.lower.now s.old p x.now).answer) × (s.new ≡ (lookup_spec ls.entry.upper.now ls.entry.lower.now s.old p x.now).state) }
{
    let k = lookup_place(s, ls, p, x)?;
    parent::load_at(s, ls, k)?;
    count_lookup(s, p, x)
}
