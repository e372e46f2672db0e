// The table rules: the root, the walk over the entries, and all of them together.
ghost use Rattle.std.specs.Prelude.{◌≡◌, ◌≤◌, length};
ghost use Rattle.layers.specs.Items.{records_of, entries_of, entry_at, free_entry};
ghost use Rattle.layers.specs.Rules.{root_test, entries_test, valid_test};
ghost use Rattle.layers.specs.RulesTally.{FreeFrom, entry_holds};

use crate::items::Table;
use crate::{distinct, entry_rules, free_places, items, kinds, search, tally};

fn root_is_good(t: &Table) -> bool
    ensures { result ≡ root_test (records_of t.now) }
{
    search::number_at(t, 1) == 1 && kinds::is_directory(search::kind_at(t, 1))
}

fn entry_holds(t: &Table, j: usize) -> bool
    ensures { result ≡ entry_holds (records_of t.now) j (entry_at (entries_of t.now) j) }
{
    if search::parent_at(t, j) == 0 {
        return free_places::free_entry_is_good(t, j);
    }
    let e = items::entry_at(t, j);
    if !entry_rules::entry_is_good(e) {
        return false;
    }
    entry_rules::ends_are_good(t, e)
}

fn entries_are_good(t: &Table, n: usize) -> bool
    requires { (n ≤ 128) × FreeFrom free_entry (entries_of t.now) n }
    ensures { result ≡ entries_test (records_of t.now) (entries_of t.now) }
{
    (0..n).all(|j| entry_holds(t, j))
}

// Whether every table rule holds, for any bytes of any length.
pub fn valid(t: &[u8]) -> bool
    ensures { result ≡ valid_test t.now }
{
    let Some(t) = t.as_array::<8192>() else {
        return false;
    };
    if !root_is_good(t) {
        return false;
    }
    let n = free_places::entries_to(t);
    if !entries_are_good(t, n) {
        return false;
    }
    if !tally::records_hold(t, n) {
        return false;
    }
    distinct::names_are_distinct(t, n)
}
