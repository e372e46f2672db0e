// Each record beside the entries that name it, which one pass over the entries collects.
ghost use Rattle.std.specs.Prelude.{◌≡◌, ◌∷◌, ◌+◌, ◌≤◌, ◌<◌, length, drop, replicate};
ghost use Rattle.layers.specs.Items.{records_of, entries_of, record_at, free_record, free_entry};
ghost use Rattle.layers.specs.Rules.{once_named_test, named_test, count_test, reach_test, records_test};
ghost use Rattle.layers.specs.RulesTally.{Counted, Parented, FreeFrom, record_holds};

use crate::items::{Record, Table};
use crate::{free_places, items, kinds, record_rules, search};

// What one pass over the entries collects for each record: how many entries name it, and the parent of the first. Parents are bytes as entries hold them, 0 for none.
#[derive(Drop)]
struct Tally {
    counts: [u8; 256],
    parents: [u8; 256],
}

// ---- a record and the entries that name it

fn is_named_once(n: u8, i: usize, r: Record) -> bool
    ensures { result ≡ once_named_test n i r }
{
    if !kinds::is_directory(r.kind) {
        return true;
    }
    if i == 1 {
        return true;
    }
    n == 1
}

fn is_named(n: u8, r: Record) -> bool
    ensures { result ≡ named_test n r }
{
    if r.number == 0 {
        return true;
    }
    if kinds::is_directory(r.kind) {
        return true;
    }
    0 < n
}

// Whether the record `r` at place `i` is named as often as it may, which is `n` times.
fn naming_is_good(n: u8, i: usize, r: Record) -> bool
    ensures { result ≡ count_test n i r }
{
    if !is_named_once(n, i, r) {
        return false;
    }
    is_named(n, r)
}

impl Tally {
    fn add(&mut self, t: &Table, j: usize)
        requires { (j < 128) × Counted (drop (j + 1) (entries_of t.now)) self.old.counts × Parented (drop (j + 1) (entries_of t.now)) self.old.parents }
        ensures { Counted (drop j (entries_of t.now)) self.new.counts × Parented (drop j (entries_of t.now)) self.new.parents }
    {
        let d = search::parent_at(t, j);
        if d == 0 {
            return;
        }
        let c = usize::from(search::child_at(t, j));
        self.counts[c] += 1;
        self.parents[c] = d;
    }

    // The first `n` entries, from the last on, so that an earlier entry's parent takes a later one's place.
    fn of(t: &Table, n: usize) -> Tally
        requires { (n ≤ 128) × FreeFrom free_entry (entries_of t.now) n }
        ensures { Counted (entries_of t.now) result.counts × Parented (entries_of t.now) result.parents }
    {
        let mut tally = Tally {
            counts: [0; 256],
            parents: [0; 256],
        };
        for j in (0..n).rev() {
            tally.add(t, j);
        }
        tally
    }

    // Whether the record at place `i`, if it is a directory, reaches the root by the parents.
    fn reaches_root(&self, t: &Table, i: usize) -> bool
        requires { (i < 256) × Parented (entries_of t.now) self.now.parents }
        ensures { result ≡ reach_test (entries_of t.now) i (record_at (records_of t.now) i) }
    {
        if !kinds::is_directory(search::kind_at(t, i)) {
            return true;
        }
        let mut q = i;
        for _ in 0..16usize {
            if q == 1 {
                return true;
            }
            if q == 0 {
                return false;
            }
            q = usize::from(self.parents[q]);
        }
        q == 1
    }

    fn record_holds(&self, t: &Table, i: usize) -> bool
        requires { (i < 129) × Counted (entries_of t.now) self.now.counts × Parented (entries_of t.now) self.now.parents }
        ensures { result ≡ record_holds (entries_of t.now) i (record_at (records_of t.now) i) }
    {
        if search::number_at(t, i) == 0 {
            return free_places::free_record_is_good(t, i);
        }
        let r = items::record_at(t, i);
        if !record_rules::record_is_good(i, r) {
            return false;
        }
        if !naming_is_good(self.counts[i], i, r) {
            return false;
        }
        self.reaches_root(t, i)
    }

    fn records_are_good(&self, t: &Table, n: usize) -> bool
        requires { (n ≤ 129) × FreeFrom free_record (free_record ∷ records_of t.now) n × Counted (entries_of t.now) self.now.counts × Parented (entries_of t.now) self.now.parents }
        ensures { result ≡ records_test (records_of t.now) (entries_of t.now) }
    {
        (1..n).all(|i| self.record_holds(t, i))
    }
}

// One pass over the first `n` entries for the counts and the parents, then one over the records.
pub(crate) fn records_hold(t: &Table, n: usize) -> bool
    requires { (n ≤ 128) × FreeFrom free_entry (entries_of t.now) n }
    ensures { result ≡ records_test (records_of t.now) (entries_of t.now) }
{
    Tally::of(t, n).records_are_good(t, free_places::records_to(t))
}
