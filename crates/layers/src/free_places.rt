// The free places of a table: whether one is all zeros, and behind how many places all are free.
ghost use Rattle.std.specs.Prelude.{◌≡◌, true, ◌∷◌, ◌*◌, ◌≤◌, length, drop};
ghost use Rattle.layers.specs.Items.{records_of, entries_of, record_at, entry_at, free_record, free_entry};
ghost use Rattle.layers.specs.Rules.{free_record_test, all_zero, free_entry_test};
ghost use Rattle.layers.specs.RulesTally.{FreeFrom};

use crate::bytes;
use crate::items::Table;

// ---- a free place, in place: "A free place is 32 zero bytes." A trait of both kinds would only name each one's first place, bounds and offset.

pub(crate) fn free_entry_is_good(t: &Table, j: usize) -> bool
    requires { (entry_at (entries_of t.now) j).parent ≡ 0 }
    ensures { result ≡ free_entry_test (entry_at (entries_of t.now) j) }
{
    if 127 < j {
        return true;
    }
    let a = 4096 + 32 * j;
    bytes::all_zero(&t[a..a + 32])
}

pub(crate) fn free_record_is_good(t: &Table, i: usize) -> bool
    requires { (record_at (records_of t.now) i).number ≡ 0 }
    ensures { result ≡ free_record_test (record_at (records_of t.now) i) }
{
    if i == 0 {
        return true;
    }
    if 128 < i {
        return true;
    }
    let a = 32 * (i - 1);
    bytes::all_zero(&t[a..a + 32])
}

// ---- how far the used places reach, so that the walks leave out the free ones behind them

// A number of places behind which all are free, found by halving; no iterator of std halves, so this stays a `while`.
fn used_places(b: &[u8]) -> usize
    requires { length b.now ≡ 4096 }
    ensures { (result ≤ 128) × (all_zero (drop (32 * result) b.now) ≡ true) }
{
    let mut n: usize = 128;
    while 0 < n {
        let m = n / 2;
        if !bytes::all_zero(&b[32 * m..32 * n]) {
            return n;
        }
        n = m;
    }
    n
}

pub(crate) fn entries_to(t: &Table) -> usize
    ensures { (result ≤ 128) × FreeFrom free_entry (entries_of t.now) result }
{
    used_places(&t[4096..])
}

// Record places count from 1, so each of the two names its half and its first place, and `used_places` is what they share.
pub(crate) fn records_to(t: &Table) -> usize
    ensures { (result ≤ 129) × FreeFrom free_record (free_record ∷ records_of t.now) result }
{
    used_places(&t[..4096]) + 1
}
