// Link: a further name of a record, in a directory of the upper layer.
// Its tests have the order of a creation's but for 1, which is of the source here and before 20 (01), and it tests two nodes before the load. Where the name stands is in `writing`.
ghost use Rattle.std.specs.Prelude.{◌≡◌, Ok, IfSome};
ghost use Rattle.merge.specs.Nodes.{nodes_of, node_at};
ghost use Rattle.calls.specs.Refusal.{after_tests};
ghost use Rattle.calls.specs.Parents.{place_numbered};
ghost use Rattle.calls.specs.Upper.{up};
ghost use Rattle.merge.specs.State.{find_number};
ghost use Rattle.calls.specs.Link.{link_nodes, link_before, link_tests, linkable, linked, linked_number, linked_at, linked_in, link_spec};

use crate::refusal::Refusal;
use crate::writing::Target;
use crate::{copy_up, lengths, parent, room, upper, writing};
use layers::items::Table;
use merge::state;
use merge::tables::Layers;

// ---- the order of tests

// Of the nodes at two places, source and parent, where there is an upper layer: 2 either whiteout, 1, 20.
fn link_nodes(s: &[u8], ls: Layers<'_>, j: usize, k: usize) -> Result<usize, Refusal>
    ensures { result ≡ after_tests (link_nodes ls.entry.upper.now ls.entry.lower.now (node_at (nodes_of s.now) j) (node_at (nodes_of s.now) k)) (Ok k) }
{
    let n = state::node_at(s, j);
    let m = state::node_at(s, k);
    if parent::is_white(n) {
        return Err(Refusal::Enoent);
    }
    if parent::is_white(m) {
        return Err(Refusal::Enoent);
    }
    if parent::is_directory(ls, n) {
        return Err(Refusal::Eperm);
    }
    if parent::is_directory(ls, m) {
        return Ok(k);
    }
    Err(Refusal::Enotdir)
}

// The tests before the load, `f` being where the source `n` was found; the new parent's place.
fn link_place(
    s: &[u8],
    ls: Layers<'_>,
    f: Option<usize>,
    n: u64,
    p: u64,
    x: &[u8],
) -> Result<usize, Refusal>
    requires { f ≡ find_number (nodes_of s.now) n }
    ensures { result ≡ after_tests (link_before ls.entry.upper.now ls.entry.lower.now s.now n p x.now) (Ok (place_numbered s.now p)) }
{
    if !lengths::lengths_fit(s, ls) {
        return Err(Refusal::Einval);
    }
    if layers::names::malformed(x) {
        return Err(Refusal::Einval);
    }
    let j = f.ok_or(Refusal::Enoent)?;
    let k = state::find(s, p).ok_or(Refusal::Enoent)?;
    if ls.upper.len() != 8192 {
        return Err(Refusal::Erofs);
    }
    link_nodes(s, ls, j, k)
}

// The tests behind the load; `j` is the source's place.
fn link_tests(s: &[u8], upper: &Table, j: usize, w: Target, x: &[u8]) -> Result<usize, Refusal>
    ensures { result ≡ after_tests (link_tests upper.now s.now j w.dir w.node w.whiteout x.now) (Ok 0) }
{
    if writing::is_live_name(s, w.node) {
        return Err(Refusal::Eexist);
    }
    if 28 < x.len() {
        return Err(Refusal::Enametoolong);
    }
    if writing::no_place(s, w.node) {
        return Err(Refusal::Enfile);
    }
    let m = room::missing_either(s, j, w.dir);
    if room::overfull(upper, w.whiteout, m, 1 + m) {
        return Err(Refusal::Enospc);
    }
    Ok(0)
}

// ---- what is written

// Whiteout deletion, source's missing directories, source, parent's missing directories.
fn prepare(s: &mut [u8], upper: &mut Table, lower: &[u8], j: usize, w: Target)
    ensures { (upper.new ≡ (linkable lower.now j w.dir w.node w.whiteout (up upper.old s.old)).table) × (s.new ≡ (linkable lower.now j w.dir w.node w.whiteout (up upper.old s.old)).state) }
{
    upper::delete_whiteout(s, upper, w.whiteout, w.node);
    copy_up::copy_node_up(s, upper, lower, j);
    copy_up::create_upper_dir(s, upper, lower, w.dir, 16);
}

// The entry and the name's node; the node's number, 0 where no node could be put in (`named_number` of specs/).
fn put_link(s: &mut [u8], upper: &mut Table, j: usize, w: Target, x: &[u8]) -> u32
    ensures { (result ≡ linked_number j w.dir w.seat x.now (up upper.old s.old)) × (upper.new ≡ (linked j w.dir w.seat x.now (up upper.old s.old)).table) × (s.new ≡ (linked j w.dir w.seat x.now (up upper.old s.old)).state) }
{
    let c = upper::top_of(state::node_at(s, j));
    let m = state::node_at(s, w.dir);
    let d = upper::top_of(m);
    let e = layers::change::entry_naming(d.number, x, c.number);
    layers::change::add_entry(upper, e);
    upper::name_node(s, w.seat, m.number, x, c.number)
}

// In the loaded directory: the tests, and what they let be written.
fn link_at(
    s: &mut [u8],
    upper: &mut Table,
    lower: &[u8],
    j: usize,
    w: Target,
    x: &[u8],
) -> Result<usize, Refusal>
    ensures { (result ≡ (linked_at upper.old lower.now s.old x.now j w.dir w.node w.seat w.whiteout).answer) × (s.new ≡ (linked_at upper.old lower.now s.old x.now j w.dir w.node w.seat w.whiteout).state) × (upper.new ≡ (linked_at upper.old lower.now s.old x.now j w.dir w.node w.seat w.whiteout).upper) }
{
    link_tests(s, upper, j, w, x)?;
    prepare(s, upper, lower, j, w);
    Ok(put_link(s, upper, j, w, x) as usize)
}

// ---- the call

// The place of the source `n`, which is `still` where that was found before a load that changed nothing.
fn source_place(s: &[u8], still: Option<usize>, n: u64) -> usize
    requires { IfSome still (λ k. k ≡ place_numbered s.now n) }
    ensures { result ≡ place_numbered s.now n }
{
    match still {
        Some(k) => k,
        None => parent::place_numbered(s, n),
    }
}

// In the loaded directory of number `p`; the source is `n`, `still` as for its place.
fn link_in(
    s: &mut [u8],
    upper: &mut Table,
    lower: &[u8],
    still: Option<usize>,
    n: u64,
    p: u64,
    x: &[u8],
) -> Result<usize, Refusal>
    requires { IfSome still (λ k. k ≡ place_numbered s.old n) }
    ensures { (result ≡ (linked_in upper.old lower.now s.old n p x.now).answer) × (s.new ≡ (linked_in upper.old lower.now s.old n p x.now).state) × (upper.new ≡ (linked_in upper.old lower.now s.old n p x.now).upper) }
{
    let j = source_place(s, still, n);
    link_at(s, upper, lower, j, writing::aim(s, upper, p, x), x)
}

// Of the source `n`, which was found at `f`.
fn link_found(
    s: &mut [u8],
    upper: &mut [u8],
    lower: &[u8],
    f: Option<usize>,
    n: u64,
    p: u64,
    x: &[u8],
) -> Result<usize, Refusal>
    requires { f ≡ find_number (nodes_of s.old) n }
    ensures { (result ≡ (link_spec upper.old lower.now s.old n p x.now).answer) × (s.new ≡ (link_spec upper.old lower.now s.old n p x.now).state) × (upper.new ≡ (link_spec upper.old lower.now s.old n p x.now).upper) }
{
    let ls = Layers { upper, lower };
    let i = link_place(s, ls, f, n, p, x)?;
    let still = if parent::is_loaded(s, i) { f } else { None };
    parent::load_at(s, ls, i)?;
    link_in(s, upper.as_mut_array().unwrap(), lower, still, n, p, x)
}

pub fn link(
    s: &mut [u8],
    upper: &mut [u8],
    lower: &[u8],
    n: u64,
    p: u64,
    x: &[u8],
) -> Result<usize, Refusal>
    ensures { (result ≡ (link_spec upper.old lower.now s.old n p x.now).answer) × (s.new ≡ (link_spec upper.old lower.now s.old n p x.now).state) × (upper.new ≡ (link_spec upper.old lower.now s.old n p x.now).upper) }
{
    let f = state::find(s, n);
    link_found(s, upper, lower, f, n, p, x)
}
