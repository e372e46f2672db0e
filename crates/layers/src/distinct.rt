// "no two entries share parent and name": the used places kept in the order of parent and name.
ghost use Rattle.std.specs.Prelude.{◌≡◌, ◌≤◌, ◌<◌, length, take};
ghost use Rattle.layers.specs.Items.{entries_of, free_entry};
ghost use Rattle.layers.specs.Names.{order_of};
ghost use Rattle.layers.specs.Rules.{distinct_test};
ghost use Rattle.layers.specs.RulesTally.{FreeFrom};
ghost use Rattle.layers.specs.RulesOrder.{place_key, PutPlace};
ghost use Rattle.layers.specs.Order.{spot_from};
ghost use Rattle.layers.specs.Sorted.{Sorted};

use crate::items::Table;
use crate::{names, search, spots};
use std::cmp::Ordering;

fn compare_places(t: &Table, a: usize, b: usize) -> Ordering
    ensures { result ≡ order_of (place_key (entries_of t.now) a) (place_key (entries_of t.now) b) }
{
    let x = search::parent_at(t, a);
    let y = search::parent_at(t, b);
    if x < y {
        return Ordering::Less;
    }
    if y < x {
        return Ordering::Greater;
    }
    names::compare(search::name_at(t, a), search::name_at(t, b))
}

// Where the entry `j` belongs among the first `n` places, none where its parent and name stand there.
fn spot_of(t: &Table, p: &[u16; 512], n: usize, j: usize) -> Option<usize>
    requires { (n ≤ 512) × Sorted (place_key (entries_of t.now)) (take n p.now) }
    ensures { result ≡ spot_from (place_key (entries_of t.now)) 0 (place_key (entries_of t.now) j) (take n p.now) }
{
    spots::spot_among(&p[..n], |q| compare_places(t, j, usize::from(q)))
}

// Puts the entry place `j` where it belongs among the first `n`, unless its parent and name stand there.
fn put_place(t: &Table, p: &mut [u16; 512], n: usize, j: usize) -> bool
    requires { (n ≤ 512) × (j < 128) × Sorted (place_key (entries_of t.now)) (take n p.old) }
    ensures { PutPlace (entries_of t.now) p.old n j result p.new }
{
    let Some(i) = spot_of(t, p, n, j) else {
        return false;
    };
    // `j` is below 128: no `From`, and a `TryFrom` would have an error that cannot be.
    spots::put_in(p, n, i, j as u16);
    true
}

pub(crate) fn names_are_distinct(t: &Table, m: usize) -> bool
    requires { (m ≤ 128) × FreeFrom free_entry (entries_of t.now) m }
    ensures { result ≡ distinct_test (entries_of t.now) }
{
    let mut p = [0u16; 512];
    let mut n: usize = 0;
    for j in 0..m {
        if search::parent_at(t, j) == 0 {
            continue;
        }
        if !put_place(t, &mut p, n, j) {
            return false;
        }
        n += 1;
    }
    true
}
