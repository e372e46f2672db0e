// The merged stack of one name.
ghost use Rattle.std.specs.Prelude.{◌≡◌, ◌+◌, ◌≤◌, ◌<◌, length, take, get_or, false, Some, IfSome};
ghost use Rattle.layers.specs.Items.{entries_of};
ghost use Rattle.layers.specs.Search.{search_of};
ghost use Rattle.merge.specs.Classes.{is_whiteout, class_of, class_at, named, seen_of};
ghost use Rattle.merge.specs.Nodes.{no_pair};
ghost use Rattle.merge.specs.Tables.{table_of, place_name};
ghost use Rattle.merge.specs.Scan.{scanned};
ghost use Rattle.merge.specs.Tops.{top_place, holds_place, Above};
ghost use Rattle.merge.specs.Stacks.{pair, stack_from, merged_stack};
ghost use Rattle.merge.specs.Fresh.{root_stack};
ghost use Rattle.merge.specs.Pushes.{no_stack, push, marked, with_real, with_seen, ends_merge, ends_seen};

use crate::scan;
use crate::tables::Layers;
use layers::items::{Record, Table};
use layers::kinds;
use layers::kinds::Kind;

// A record of a layer: layer 0 is the upper one, 1 to 3 are the lower ones in order.
#[derive(Clone, Copy)]
pub struct Pair {
    pub layer: u8,
    pub number: u8,
}

// A place of a stack past its length.
pub(crate) const NO_PAIR: Pair = Pair {
    layer: 0,
    number: 0,
};

// What a record is to the merge.
#[derive(Clone, Copy)]
pub enum Class {
    Whiteout,
    Other,
    Plain,
    Opaque,
}

// "a stack of 4 places with a length", topmost first; places past the length are 0. The mark is that of the first record. The length stands beside
// them as in a node's bytes (ABI.md), and no heap is at hand.
#[derive(Clone, Copy)]
pub struct Stack {
    pub pairs: [Pair; 4],
    pub length: usize,
    pub whiteout: bool,
}

// ---- what a layer has under a name

pub fn is_whiteout(r: Record) -> bool
    ensures { result ≡ is_whiteout r }
{
    r.kind == u8::from(Kind::Character) && r.device == 0
}

fn class_of(r: Record) -> Class
    ensures { result ≡ class_of r }
{
    if is_whiteout(r) {
        return Class::Whiteout;
    }
    if !kinds::is_directory(r.kind) {
        return Class::Other;
    }
    if r.opaque == 1 {
        return Class::Opaque;
    }
    Class::Plain
}

// The class of the record `n`, an entry of the directory `d` naming it.
pub fn class_at(t: &Table, d: u8, n: u8) -> Class
    ensures { result ≡ class_at t.now d n }
{
    class_of(layers::items::record_at(t, usize::from(n)))
}

// The record that `x` has in the directory `d`, 0 for none: an entry of a damaged table may name record 0, and `named` of specs/ takes that as none.
pub fn named_in(t: &Table, d: u8, x: &[u8]) -> u8
    ensures { result ≡ named (entries_of t.now) d x.now }
{
    let Some(j) = layers::search::search(t, d, x) else {
        return 0;
    };
    layers::search::child_at(t, j)
}

// The same, where the entry's place may be known.
fn named_known(t: &Table, d: u8, x: &[u8], known: Option<usize>) -> u8
    requires { IfSome known (λ j. search_of (entries_of t.now) d x.now ≡ Some j) }
    ensures { result ≡ named (entries_of t.now) d x.now }
{
    match known {
        Some(j) => layers::search::child_at(t, j),
        None => named_in(t, d, x),
    }
}

// What `x` is in the directory `d`, where its entry's place may be known.
fn seen_known(t: &Table, d: u8, x: &[u8], known: Option<usize>) -> Option<(Class, u8)>
    requires { IfSome known (λ j. search_of (entries_of t.now) d x.now ≡ Some j) }
    ensures { result ≡ seen_of t.now d x.now }
{
    let n = named_known(t, d, x, known);
    if n == 0 {
        return None;
    }
    Some((class_at(t, d, n), n))
}

// What `x` is in the directory `d`. Public as before, and asks nothing; nothing here calls it.
pub fn seen_in(t: &Table, d: u8, x: &[u8]) -> Option<(Class, u8)>
    ensures { result ≡ seen_of t.now d x.now }
{
    seen_known(t, d, x, None)
}

// ---- records put into a stack

fn no_stack() -> Stack
    ensures { result ≡ no_stack }
{
    Stack {
        pairs: [NO_PAIR; 4],
        length: 0,
        whiteout: false,
    }
}

fn pushed(s: Stack, k: u8, n: u8) -> Stack
    requires { s.length < 4 }
    ensures { (result ≡ push s (pair k n)) × (result.length ≤ s.length + 1) }
{
    let mut a = s.pairs;
    let i = s.length;
    a[i] = Pair {
        layer: k,
        number: n,
    };
    Stack {
        pairs: a,
        length: i + 1,
        whiteout: s.whiteout,
    }
}

fn first_of(s: Stack, k: u8, n: u8, w: bool) -> Stack
    requires { s.length < 4 }
    ensures { (result ≡ marked w s (pair k n)) × (result.length ≤ s.length + 1) }
{
    if s.length != 0 {
        return s;
    }
    let mut p = pushed(s, k, n);
    p.whiteout = w;
    p
}

// A whiteout or a non-directory is kept only as the first; a directory is kept. The arms are those of `with_real` of specs/: a step handed in would be chosen by this match.
fn with_real(s: Stack, k: u8, n: u8, c: Class) -> Stack
    requires { s.length < 4 }
    ensures { (result ≡ with_real s (pair k n) c) × (result.length ≤ s.length + 1) }
{
    match c {
        Class::Whiteout => first_of(s, k, n, true),
        Class::Other => first_of(s, k, n, false),
        Class::Plain => pushed(s, k, n),
        Class::Opaque => pushed(s, k, n),
    }
}

// What a scanned directory has of the name, where it has it: `with_seen` of specs/, two arms.
fn with_seen(s: Stack, k: u8, f: Option<(Class, u8)>) -> Stack
    requires { s.length < 4 }
    ensures { (result ≡ with_seen s k f) × (result.length ≤ s.length + 1) }
{
    match f {
        None => s,
        Some((c, n)) => with_real(s, k, n, c),
    }
}

// A plain directory alone lets the stack go on.
fn ends_merge(c: Class) -> bool
    ensures { result ≡ ends_merge c }
{
    !matches!(c, Class::Plain)
}

fn ends_seen(f: Option<(Class, u8)>) -> bool
    ensures { result ≡ ends_seen f }
{
    match f {
        None => false,
        Some((c, _)) => ends_merge(c),
    }
}

// The merged stack of the name `x` below the first `len` of the stack `s`: each scanned directory's record of that name, put in until one ends it.
// No directory before place `b` has the name, and its entry's place in that one may be known.
fn stack_from(
    ls: Layers<'_>,
    s: [Pair; 4],
    len: usize,
    x: &[u8],
    b: usize,
    known: Option<usize>,
) -> Stack
    requires { (b ≤ 4) × Above ls.upper.now ls.lower.now (take len s) x.now b × IfSome known (λ j. search_of (entries_of (table_of ls.upper.now ls.lower.now (get_or s b no_pair).layer)) (get_or s b no_pair).number x.now ≡ Some j) }
    ensures { (result ≡ merged_stack ls.entry.upper.now ls.entry.lower.now (take len s) x.now) × (result.length ≤ 4) }
{
    let mut out = no_stack();
    let mut here = known;
    for i in b..len.min(4) {
        let a = s[i];
        let Some(t) = scan::walked(ls, a) else {
            return out;
        };
        let f = seen_known(t, a.number, x, here);
        out = with_seen(out, a.layer, f);
        if ends_seen(f) {
            return out;
        }
        if scan::ends_scan(t, a.number) {
            return out;
        }
        here = None;
    }
    out
}

// The same, from the top of the stack on.
pub fn new_from_real_inodes(ls: Layers<'_>, s: [Pair; 4], len: usize, x: &[u8]) -> Stack
    ensures { (result ≡ merged_stack ls.entry.upper.now ls.entry.lower.now (take len s) x.now) × (result.length ≤ 4) }
{
    stack_from(ls, s, len, x, 0, None)
}

// Whether the entry at the place `q` of all layers stands in the directory `d` of layer `k`.
fn holds_place(ls: Layers<'_>, k: u8, d: u8, q: u16) -> bool
    ensures { result ≡ holds_place ls.entry.upper.now ls.entry.lower.now k d q }
{
    if u16::from(k) != q / 128 {
        return false;
    }
    let Some(t) = ls.table(usize::from(k)) else {
        return false;
    };
    scan::in_directory(t, usize::from(q % 128), d)
}

// The same for a name `x` that the scan found at the place `q`: from the directory of that place on, by its entry.
pub(crate) fn new_from_place(ls: Layers<'_>, s: [Pair; 4], len: usize, x: &[u8], q: u16) -> Stack
    requires { (x.now ≡ place_name ls.upper.now ls.lower.now q) × (top_place ls.upper.now ls.lower.now x.now (scanned ls.upper.now ls.lower.now (take len s)) ≡ Some q) }
    ensures { (result ≡ merged_stack ls.entry.upper.now ls.entry.lower.now (take len s) x.now) × (result.length ≤ 4) }
{
    for i in 0..len.min(4) {
        let a = s[i];
        if holds_place(ls, a.layer, a.number, q) {
            return stack_from(ls, s, len, x, i, Some(usize::from(q % 128)));
        }
    }
    new_from_real_inodes(ls, s, len, x)
}

// The root's stack: every layer's root, topmost first.
pub fn root_stack(ls: Layers<'_>) -> Stack
    ensures { (result ≡ stack_from (root_stack ls.entry.upper.now ls.entry.lower.now) false) × (result.length ≤ 4) }
{
    let mut out = no_stack();
    for k in 0..4 {
        if ls.table(usize::from(k)).is_some() {
            out = pushed(out, k, 1);
        }
    }
    out
}
