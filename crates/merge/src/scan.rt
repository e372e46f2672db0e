// The directory scan: the names of a directory's stack, each once, in byte order.
ghost use Rattle.std.specs.Prelude.{◌≡◌, ◌+◌, ◌*◌, ◌≤◌, ◌<◌, length, take};
ghost use Rattle.layers.specs.Items.{entries_of, entry_at};
ghost use Rattle.layers.specs.Order.{insert_by, spot_from};
ghost use Rattle.layers.specs.Sorted.{Sorted};
ghost use Rattle.merge.specs.Tables.{table_of, place_name};
ghost use Rattle.merge.specs.Scan.{is_walked, IsWalked, ends_scan, in_directory};
ghost use Rattle.merge.specs.Places.{add_place, merged_places, Filled};

use crate::stacks::Pair;
use crate::tables;
use crate::tables::Layers;
use layers::items::Table;

// "stop before a whiteout or a non-directory"; a layer that is not there has no directory.
pub fn is_walked(t: &[u8], d: u8) -> bool
    ensures { result ≡ is_walked t.now d }
{
    let Some(t) = t.as_array::<8192>() else {
        return false;
    };
    layers::kinds::is_directory(layers::search::kind_at(t, usize::from(d)))
}

// The table of a directory that the scan walks.
pub(crate) fn walked<'a>(ls: Layers<'a>, a: Pair) -> Option<&'a Table>
    ensures { IsWalked (table_of ls.entry.upper.now ls.entry.lower.now a.layer) a.number result }
{
    let t = ls.table(usize::from(a.layer))?;
    if is_walked(t, a.number) {
        Some(t)
    } else {
        None
    }
}

// "stop after an opaque one"
pub fn ends_scan(t: &Table, d: u8) -> bool
    ensures { result ≡ ends_scan t.now d }
{
    layers::items::record_at(t, usize::from(d)).opaque == 1
}

// ---- places, kept in byte order of their names

// Where the name `x` belongs among the first `n` places, found by halving.
fn position(ls: Layers<'_>, p: &[u16; 512], n: usize, x: &[u8]) -> Option<usize>
    requires { (n ≤ 512) × Sorted (place_name ls.upper.now ls.lower.now) (take n p.now) }
    ensures { result ≡ spot_from (place_name ls.entry.upper.now ls.entry.lower.now) 0 x.now (take n p.now) }
{
    layers::spots::spot_among(&p[..n], |q| layers::names::compare(x, ls.place_name(q)))
}

// Puts the place `q` among the first `n`, which stand in order of their names; answers how many there are then.
fn insert(ls: Layers<'_>, p: &mut [u16; 512], n: usize, q: u16) -> usize
    requires { (n < 512) × Sorted (place_name ls.upper.now ls.lower.now) (take n p.old) }
    ensures { Filled p.old result (insert_by (place_name ls.entry.upper.now ls.entry.lower.now) q (take n p.old)) p.new × (n ≤ result) × (result ≤ n + 1) }
{
    let Some(i) = position(ls, p, n, ls.place_name(q)) else {
        return n;
    };
    layers::spots::put_in(p, n, i, q);
    n + 1
}

// ---- the scan

pub(crate) fn in_directory(t: &Table, j: usize, d: u8) -> bool
    ensures { result ≡ in_directory d (entry_at (entries_of t.now) j) }
{
    let p = layers::search::parent_at(t, j);
    if p == 0 {
        return false;
    }
    p == d
}

// Adds the place `q` of the entry `j` where that stands in the directory `d`.
fn add_place(
    ls: Layers<'_>,
    p: &mut [u16; 512],
    n: usize,
    t: &Table,
    j: usize,
    d: u8,
    q: u16,
) -> usize
    requires { (n < 512) × Sorted (place_name ls.upper.now ls.lower.now) (take n p.old) }
    ensures { Filled p.old result (add_place (place_name ls.entry.upper.now ls.entry.lower.now) d q (entry_at (entries_of t.now) j) (take n p.old)) p.new × (n ≤ result) × (result ≤ n + 1) }
{
    if in_directory(t, j, d) {
        return insert(ls, p, n, q);
    }
    n
}

fn place_of(k: u8, j: usize) -> u16
    requires { j < 128 }
    ensures { result ≡ 128 * k + j }
{
    128 * u16::from(k) + j as u16
}

// Fills `p` with the places that stand for the names below the first `len` of the stack `s`; answers how many.
pub fn scan_childrens(ls: Layers<'_>, s: [Pair; 4], len: usize, p: &mut [u16; 512]) -> usize
    ensures { Filled p.old result (merged_places ls.entry.upper.now ls.entry.lower.now (take len s)) p.new × (result ≤ 512) }
{
    let mut n = 0;
    for i in 0..len.min(4) {
        let a = s[i];
        let Some(t) = walked(ls, a) else {
            return n;
        };
        for j in 0..128 {
            n = add_place(ls, p, n, t, j, a.number, place_of(a.layer, j));
        }
        if ends_scan(t, a.number) {
            return n;
        }
    }
    n
}
