// 28, decided before anything is written: what the whole call will need and free.
ghost use Rattle.std.specs.Prelude.{◌≡◌, ◌≤◌, ◌-◌, length};
ghost use Rattle.std.specs.Iterator.{YieldsFirst, item_count};
ghost use Rattle.calls.specs.Room.{missing, places_left, is_in, missing_beside, missing_either, whiteout_entry, freed_entries, freed_records, overfull};

use crate::{parent, upper};
use layers::items::Table;
use layers::search;
use merge::state;

// ---- what is made

// The places of the nodes from `place` up that are not in the upper layer, at most `left` of them.
#[derive(Clone, Copy)]
struct MissingFrom<'a> {
    s: &'a [u8],
    place: usize,
    left: usize,
}

impl<'a> Iterator for MissingFrom<'a> {
    type Item = usize;

    ghost next_gives = { YieldsFirst places_left };

    ghost remaining = { item_count places_left };

    fn next(&mut self) -> Option<usize> {
        if self.left == 0 {
            return None;
        }
        let j = self.place;
        let n = state::node_at(self.s, j);
        if upper::in_upper(n) {
            return None;
        }
        self.place = parent::place_numbered(self.s, u64::from(n.parent));
        self.left -= 1;
        Some(j)
    }
}

// From place `k` up: a file, and at most 16 directories above it.
fn missing(s: &[u8], k: usize) -> MissingFrom<'_>
    ensures { places_left result ≡ missing s.now k }
{
    MissingFrom {
        s,
        place: k,
        left: 17,
    }
}

pub(crate) fn missing_count(s: &[u8], k: usize) -> usize
    ensures { (result ≡ length (missing s.now k)) × (result ≤ 17) }
{
    missing(s, k).count()
}

fn is_missing(s: &[u8], k: usize, i: usize) -> bool
    ensures { result ≡ is_in i (missing s.now k) }
{
    missing(s, k).any(|j| i == j)
}

// How many from place `i` up are not in the upper layer, those from `k` up left aside.
fn missing_beside(s: &[u8], i: usize, k: usize) -> usize
    ensures { (result ≡ missing_beside s.now i k) × (result ≤ 17) }
{
    missing(s, i).filter(|&j| !is_missing(s, k, j)).count()
}

// How many the paths of both places need; a directory that both need counts once.
pub(crate) fn missing_either(s: &[u8], i: usize, k: usize) -> usize
    ensures { (result ≡ missing_either s.now i k) × (result ≤ 34) }
{
    missing_count(s, k) + missing_beside(s, i, k)
}

// ---- what is freed

// The upper entry of the whiteout that the call deletes; `k` is the parent's place, `f` that of the name's node.
pub(crate) fn whiteout_entry(
    s: &[u8],
    upper: &Table,
    k: usize,
    f: Option<usize>,
    x: &[u8],
) -> Option<usize>
    ensures { result ≡ whiteout_entry upper.now s.now k f x.now }
{
    let j = f?;
    if upper::in_upper(state::node_at(s, j)) {
        let d = upper::top_of(state::node_at(s, k));
        return search::search(upper, d.number, x);
    }
    None
}

fn freed_entries(e: Option<usize>) -> usize
    ensures { (result ≡ freed_entries e) × (result ≤ 1) }
{
    usize::from(e.is_some())
}

fn freed_records(upper: &Table, e: Option<usize>) -> usize
    ensures { (result ≡ freed_records upper.now e) × (result ≤ 1) }
{
    let Some(j) = e else {
        return 0;
    };
    let c = search::child_at(upper, j);
    usize::from(search::naming_entries(upper, c) == 1)
}

// ---- whether it fits

// So many records and entries are made, and the entry at `e` goes: the upper layer would hold over 128.
pub(crate) fn overfull(upper: &Table, e: Option<usize>, records: usize, entries: usize) -> bool
    requires { (records ≤ 64) × (entries ≤ 64) }
    ensures { result ≡ overfull upper.now e records entries }
{
    let r = records.saturating_sub(freed_records(upper, e));
    let n = entries.saturating_sub(freed_entries(e));
    !search::has_free_records(upper, r) || !search::has_free_entries(upper, n)
}
