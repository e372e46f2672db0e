// The changes of a table: an entry made, put or taken away, and a record put.
ghost use Rattle.std.specs.Prelude.{◌≡◌, ◌<◌, length};
ghost use Rattle.layers.specs.Change.{entry_naming, numbered, AddEntry, AddRecord, DropEntry, FreedRecord};

use crate::items::{Entry, Record, Table};
use crate::{bytes, items, names, search};

// The entry that names the record `c` as `x` in the directory `d`; of a name that does not fit, 28 zeros.
pub fn entry_naming(d: u8, x: &[u8], c: u8) -> Entry
    ensures { result ≡ entry_naming d x.now c }
{
    let b = names::padded(x);
    Entry {
        parent: d,
        child: c,
        length: bytes::at_most(28, x.len()),
        zero: 0,
        name: b,
    }
}

// Puts an entry that names a record at the lowest free place; where none is free, nothing changes.
pub fn add_entry(t: &mut Table, e: Entry) -> Option<usize>
    ensures { AddEntry t.old e result t.new }
{
    let k = search::free_entry(t)?;
    items::put_entry(t, k, e);
    Some(k)
}

// Puts a record at the lowest free place, which becomes its number (at most 128, so the cast loses nothing); where none is free, nothing changes. An entry gets no number: `add_entry` has the same shape and no more.
pub fn add_record(t: &mut Table, r: Record) -> Option<usize>
    ensures { AddRecord t.old r result t.new }
{
    let i = search::free_record(t)?;
    items::put_record(
        t,
        i,
        Record {
            number: i as u8,
            ..r
        },
    );
    Some(i)
}

// Frees the record `c` where no entry names it.
fn free_unnamed(t: &mut Table, c: u8)
    ensures { FreedRecord t.old c t.new }
{
    if search::naming_entries(t, c) == 0 {
        items::put_record(t, usize::from(c), items::no_record());
    }
}

// Takes the entry at place `j` away, and its record with the last entry that names it.
pub fn drop_entry(t: &mut Table, j: usize)
    ensures { DropEntry t.old j t.new }
{
    if search::parent_at(t, j) == 0 {
        return;
    }
    let c = search::child_at(t, j);
    items::put_entry(t, j, items::no_entry());
    free_unnamed(t, c);
}
