// The rules of one entry: its fields by value, and its parent and child in the table.
ghost use Rattle.std.specs.Prelude.{◌≡◌, ◌≤◌, length, drop, replicate};
ghost use Rattle.layers.specs.Items.{records_of, record_at};
ghost use Rattle.layers.specs.Names.{same_name};
ghost use Rattle.layers.specs.Rules.{all_zero, name_test, free_entry_test, entry_test, child_test, ends_test};

use crate::items::{Entry, Table, no_entry};
use crate::{bytes, kinds, names, search};

// ---- its fields

fn name_is_good(x: [u8; 28], n: usize) -> bool
    requires { n ≤ 28 }
    ensures { result ≡ name_test n x }
{
    if !bytes::all_zero(&x[n..]) {
        return false;
    }
    !names::malformed(&x[..n])
}

fn entry_is_blank(e: Entry) -> bool
    ensures { result ≡ free_entry_test e }
{
    e == Entry {
        parent: e.parent,
        ..no_entry()
    }
}

// Whether the fields of the entry `e` keep the rules.
pub fn entry_is_good(e: Entry) -> bool
    ensures { result ≡ entry_test e }
{
    if e.parent == 0 {
        return entry_is_blank(e);
    }
    if e.zero != 0 {
        return false;
    }
    let n = usize::from(e.length);
    if n < 1 {
        return false;
    }
    if 28 < n {
        return false;
    }
    let x = e.name;
    name_is_good(x, n)
}

// ---- its parent and child

fn child_exists(t: &Table, i: u8) -> bool
    ensures { result ≡ child_test (records_of t.now) i }
{
    search::number_at(t, usize::from(i)) != 0
}

// Whether the parent is a directory and the child a record other than the root.
pub(crate) fn ends_are_good(t: &Table, e: Entry) -> bool
    ensures { result ≡ ends_test (records_of t.now) e }
{
    if e.parent == 0 {
        return true;
    }
    if !kinds::is_directory(search::kind_at(t, usize::from(e.parent))) {
        return false;
    }
    if !child_exists(t, e.child) {
        return false;
    }
    e.child != 1
}
