// The search of one layer, free places, and counts.
ghost use Rattle.std.specs.Prelude.{◌≡◌, ◌≤◌, ◌+◌, length, not, leb};
ghost use Rattle.layers.specs.Items.{records_of, entries_of, record_at, entry_at};
ghost use Rattle.layers.specs.Search.{name_of, is_free, no_record, names, names_record, search_of, free_entry_place, free_record_place, one, used_entries, used_records, naming};

use crate::items::Table;
use crate::{bytes, names};

// ---- an entry's fields, in place; outside the table those of the free one, as `entry_at` of specs/, on which the contracts stand, answers there.
// One function with an offset could not say in its clause which field it answers.

pub fn parent_at(t: &Table, j: usize) -> u8
    ensures { result ≡ (entry_at (entries_of t.now) j).parent }
{
    if 127 < j {
        return 0;
    }
    t[4096 + 32 * j]
}

pub fn child_at(t: &Table, j: usize) -> u8
    ensures { result ≡ (entry_at (entries_of t.now) j).child }
{
    if 127 < j {
        return 0;
    }
    t[4096 + 32 * j + 1]
}

fn length_at(t: &Table, j: usize) -> u8
    ensures { result ≡ (entry_at (entries_of t.now) j).length }
{
    if 127 < j {
        return 0;
    }
    t[4096 + 32 * j + 2]
}

// The name at place `j`: as many of its 28 bytes as its length says.
pub fn name_at(t: &Table, j: usize) -> &[u8]
    ensures { result.now ≡ name_of (entry_at (entries_of t.now) j) }
{
    if 127 < j {
        return &t[..0];
    }
    let n = usize::from(length_at(t, j)).min(28);
    let a = 4096 + 32 * j + 4;
    &t[a..a + n]
}

// ---- a record's first bytes, likewise; the bytes and no enum, as a damaged table holds any

pub fn number_at(t: &Table, i: usize) -> u8
    ensures { result ≡ (record_at (records_of t.now) i).number }
{
    if i == 0 {
        return 0;
    }
    if 128 < i {
        return 0;
    }
    t[32 * (i - 1)]
}

pub fn kind_at(t: &Table, i: usize) -> u8
    ensures { result ≡ (record_at (records_of t.now) i).kind }
{
    if i == 0 {
        return 0;
    }
    if 128 < i {
        return 0;
    }
    t[32 * (i - 1) + 1]
}

// ---- the search

fn names_at(t: &Table, j: usize, d: u8, x: &[u8]) -> bool
    ensures { result ≡ names d x.now (entry_at (entries_of t.now) j) }
{
    let p = parent_at(t, j);
    if p == 0 {
        return false;
    }
    if p != d {
        return false;
    }
    names::same_name(name_at(t, j), x)
}

// The place that names `x` in the directory `d`.
pub fn search(t: &Table, d: u8, x: &[u8]) -> Option<usize>
    ensures { result ≡ search_of (entries_of t.now) d x.now }
{
    (0..128).find(|j| names_at(t, *j, d, x))
}

// ---- free places. Entries and records are told free by different fields and counted from 0 and from 1: a function of both would be the `find` itself.

fn is_free(t: &Table, j: usize) -> bool
    ensures { result ≡ is_free (entry_at (entries_of t.now) j) }
{
    parent_at(t, j) == 0
}

// The lowest free entry place.
pub fn free_entry(t: &Table) -> Option<usize>
    ensures { result ≡ free_entry_place (entries_of t.now) }
{
    (0..128).find(|j| is_free(t, *j))
}

fn no_record_at(t: &Table, i: usize) -> bool
    ensures { result ≡ no_record (record_at (records_of t.now) i) }
{
    number_at(t, i) == 0
}

// The lowest free record place.
pub fn free_record(t: &Table) -> Option<usize>
    ensures { result ≡ free_record_place (records_of t.now) }
{
    (1..129).find(|i| no_record_at(t, *i))
}

// ---- counts

// How many entry places are used.
pub fn used_entries(t: &Table) -> usize
    ensures { (result ≡ used_entries (entries_of t.now)) × (result ≤ 128) }
{
    let mut n = 0;
    for j in 0..128 {
        n += usize::from(!is_free(t, j));
    }
    n
}

// Whether at least `n` entry places are free: the lowest are taken first, so the walk starts at the highest, and ends at the n-th.
pub fn has_free_entries(t: &Table, n: usize) -> bool
    ensures { result ≡ leb (used_entries (entries_of t.now) + n) 128 }
{
    (0..128).rev().filter(|j| is_free(t, *j)).take(n).count() == n
}

// How many record places are used.
pub fn used_records(t: &Table) -> usize
    ensures { (result ≡ used_records (records_of t.now)) × (result ≤ 128) }
{
    let mut n = 0;
    for i in 1..129 {
        n += usize::from(!no_record_at(t, i));
    }
    n
}

// Whether at least `n` record places are free, walked like the entries.
pub fn has_free_records(t: &Table, n: usize) -> bool
    ensures { result ≡ leb (used_records (records_of t.now) + n) 128 }
{
    (1..129)
        .rev()
        .filter(|i| no_record_at(t, *i))
        .take(n)
        .count()
        == n
}

fn names_record(t: &Table, j: usize, r: u8) -> bool
    ensures { result ≡ names_record r (entry_at (entries_of t.now) j) }
{
    parent_at(t, j) != 0 && child_at(t, j) == r
}

// How many entries name the record `r`.
pub fn naming_entries(t: &Table, r: u8) -> usize
    ensures { (result ≡ naming r (entries_of t.now)) × (result ≤ 128) }
{
    let mut n = 0;
    for j in 0..128 {
        n += usize::from(names_record(t, j, r));
    }
    n
}
