// Forget: a node's count falls, and at 0 the node goes.
ghost use Rattle.std.specs.Prelude.{◌≡◌};
ghost use Rattle.merge.specs.Changes.{taken_bytes};
ghost use Rattle.merge.specs.Forget.{unloaded, forget_spec};

use crate::{change, state};

// The node of number `p`, where there is one, is not loaded any more.
#[tactic(auto, unfolding(crate::specs::Forget::unloaded_at))]
fn unload(s: &mut [u8], p: u64)
    ensures { s.new ≡ unloaded s.old p }
{
    let Some(k) = state::find(s, p) else {
        return;
    };
    let n = state::node_at(s, k).with_loaded(0);
    change::put_node(s, k, n);
}

// The node at place `k` goes, and its parent `p` is then not loaded.
fn remove(s: &mut [u8], k: usize, p: u64)
    ensures { s.new ≡ unloaded (taken_bytes s.old k) p }
{
    change::take_out(s, k);
    unload(s, p);
}

#[tactic(auto, unfolding(crate::specs::Forget::forget_spec, crate::specs::Forget::forgotten_at))]
pub fn forget_one(s: &mut [u8], number: u64, amount: u64)
    ensures { s.new ≡ forget_spec s.old number amount }
{
    if number <= 1 {
        return;
    }
    let Some(k) = state::find(s, number) else {
        return;
    };
    let n = state::node_at(s, k).forget(amount);
    if n.count == 0 && !state::has_children(s, number) {
        remove(s, k, u64::from(n.parent));
        return;
    }
    change::put_node(s, k, n);
}
