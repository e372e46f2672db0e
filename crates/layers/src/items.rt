// A table's records and entries, read and written by value at a place.
ghost use Rattle.std.specs.Prelude.{◌≡◌, ◌+◌, ◌*◌, ◌≤◌, ◌<◌, length};
ghost use Rattle.layers.specs.Bytes.{part, over};
ghost use Rattle.layers.specs.Items.{record_of, entry_of, records_of, entries_of, record_at, entry_at, free_record, free_entry, head_bytes, tail_bytes, PutRecord, PutEntry, FitsHead, FitsTail};

use crate::bytes;

// A layer's table: 128 records, then 128 entries, 32 bytes each.
pub type Table = [u8; 8192];

// Every byte of a record's 32 is a field. Kind and opaque are bytes and no enum or bool: a damaged table holds any, and `record_at` answers for any.
#[derive(Clone, Copy, PartialEq, Eq, Default)]
pub struct Record {
    pub number: u8,
    pub kind: u8,
    pub opaque: u8,
    pub mark: u8,
    pub permissions: u16,
    pub links: u16,
    pub device: u64,
    pub size: u64,
    pub content: u64,
}

// Every byte of an entry's 32 is a field.
#[derive(Clone, Copy, PartialEq, Eq)]
pub struct Entry {
    pub parent: u8,
    pub child: u8,
    pub length: u8,
    pub zero: u8,
    pub name: [u8; 28],
}

// ---- reading, field by field as ABI.md lays them; records and entries share no field, first place or offset that a trait of both could say once

fn record_of(b: &[u8]) -> Record
    requires { length b.now ≡ 32 }
    ensures { result ≡ record_of b.now }
{
    Record {
        number: b[0],
        kind: b[1],
        opaque: b[2],
        mark: b[3],
        permissions: bytes::number_at::<u16>(b, 4),
        links: bytes::number_at::<u16>(b, 6),
        device: bytes::number_at::<u64>(b, 8),
        size: bytes::number_at::<u64>(b, 16),
        content: bytes::number_at::<u64>(b, 24),
    }
}

// The free record.
pub fn no_record() -> Record
    ensures { result ≡ free_record }
{
    Record::default()
}

// The record at place `i`; outside the table the free one, as `record_at` of specs/ and the contracts on it have it.
pub fn record_at(t: &Table, i: usize) -> Record
    ensures { result ≡ record_at (records_of t.now) i }
{
    if i == 0 {
        return no_record();
    }
    if 128 < i {
        return no_record();
    }
    let a = 32 * (i - 1);
    record_of(&t[a..a + 32])
}

fn name_of(b: &[u8]) -> [u8; 28]
    requires { length b.now ≡ 32 }
    ensures { result ≡ part b.now 4 28 }
{
    let mut x = [0u8; 28];
    bytes::lay(&mut x, 0, &b[4..32]);
    x
}

fn entry_of(b: &[u8]) -> Entry
    requires { length b.now ≡ 32 }
    ensures { result ≡ entry_of b.now }
{
    let x = name_of(b);
    Entry {
        parent: b[0],
        child: b[1],
        length: b[2],
        zero: b[3],
        name: x,
    }
}

// The free entry, written out: of an array of 28 the derived default says nothing that a proof here can use.
pub fn no_entry() -> Entry
    ensures { result ≡ free_entry }
{
    Entry {
        parent: 0,
        child: 0,
        length: 0,
        zero: 0,
        name: [0; 28],
    }
}

// The entry at place `j`; outside the table the free one, likewise.
pub fn entry_at(t: &Table, j: usize) -> Entry
    ensures { result ≡ entry_at (entries_of t.now) j }
{
    if 127 < j {
        return no_entry();
    }
    let a = 4096 + 32 * j;
    entry_of(&t[a..a + 32])
}

// ---- writing, field by field and for each of the two as in reading

fn lay_head(t: &mut [u8], a: usize, r: Record)
    requires { a + 8 ≤ length t.old }
    ensures { (t.new ≡ over t.old a (head_bytes r)) × FitsHead r }
{
    let first = [r.number, r.kind, r.opaque, r.mark];
    bytes::lay(t, a, &first);
    bytes::put_number(t, a + 4, r.permissions);
    bytes::put_number(t, a + 6, r.links);
}

fn lay_tail(t: &mut [u8], a: usize, r: Record)
    requires { a + 24 ≤ length t.old }
    ensures { (t.new ≡ over t.old a (tail_bytes r)) × FitsTail r }
{
    bytes::put_number(t, a, r.device);
    bytes::put_number(t, a + 8, r.size);
    bytes::put_number(t, a + 16, r.content);
}

// The record put at place `i`; outside the table nothing changes.
pub fn put_record(t: &mut Table, i: usize, r: Record)
    ensures { PutRecord t.old i r t.new }
{
    if i == 0 {
        return;
    }
    if 128 < i {
        return;
    }
    let a = 32 * (i - 1);
    lay_head(t, a, r);
    lay_tail(t, a + 8, r);
}

fn lay_name(t: &mut [u8], a: usize, x: [u8; 28])
    requires { a + 28 ≤ length t.old }
    ensures { (t.new ≡ over t.old a x) × (length x ≡ 28) }
{
    bytes::lay(t, a, &x);
}

// The entry put at place `j`; outside the table nothing changes.
pub fn put_entry(t: &mut Table, j: usize, e: Entry)
    ensures { PutEntry t.old j e t.new }
{
    if 127 < j {
        return;
    }
    let a = 4096 + 32 * j;
    let first = [e.parent, e.child, e.length, e.zero];
    let x = e.name;
    bytes::lay(t, a, &first);
    lay_name(t, a + 4, x);
}
