// Copy-up: the missing directories of a path, made from the root down, and a node of a lower layer made in the upper one.
ghost use Rattle.std.specs.Prelude.{◌≡◌, Ok};
ghost use Rattle.calls.specs.Refusal.{after_tests};
ghost use Rattle.calls.specs.Parents.{place_numbered};
ghost use Rattle.calls.specs.Upper.{up, new_record, directory_like, file_like, added_for, made_directory, made_upper, copied_file, copied_up};
ghost use Rattle.calls.specs.CopyUp.{copy_up_before, copy_up_spec};

use crate::refusal::Refusal;
use crate::{lengths, parent, room, upper};
use layers::items::{self, Record, Table};
use layers::kinds::Kind;
use merge::tables::Layers;
use merge::{change, state};

// ---- the records that are made

// A directory's record in the upper layer: same permissions, size and content 0; never opaque, as that would hide the lower names.
fn directory_like(r: Record) -> Record
    ensures { result ≡ directory_like r }
{
    Record {
        kind: u8::from(Kind::Directory),
        permissions: r.permissions,
        ..items::no_record()
    }
}

// A file's record in the upper layer: kind, permissions, device, size and content.
fn file_like(r: Record) -> Record
    ensures { result ≡ file_like r }
{
    Record {
        number: 0,
        opaque: 0,
        mark: 0,
        links: 0,
        ..r
    }
}

// Adds a record for the node at place `k`, below its parent's upper record under the node's name; its number, 0 where none is free (`new_record` of specs/).
fn add_for(s: &[u8], upper: &mut Table, k: usize, r: Record) -> u8
    ensures { (result ≡ new_record upper.old) × (upper.new ≡ added_for k r (up upper.old s.now)) }
{
    let n = state::node_at(s, k);
    let d = upper::top_of(parent::node_numbered(s, u64::from(n.parent)));
    upper::add_new(upper, d.number, n.name_bytes(), r)
}

// ---- directories

// One missing directory, whose parent is there: its record goes on top, where a file's stands alone (`copy_file`); what the two share is `add_for`.
fn make_directory(s: &mut [u8], upper: &mut Table, lower: &[u8], k: usize)
    ensures { (upper.new ≡ (made_directory lower.now k (up upper.old s.old)).table) × (s.new ≡ (made_directory lower.now k (up upper.old s.old)).state) }
{
    let n = state::node_at(s, k);
    let r = directory_like(upper::top_record(Layers { upper, lower }, n));
    let c = add_for(s, upper, k, r);
    change::put_node(s, k, n.topped(upper::upper_pair(c)));
}

// The directory at place `k` in the upper layer, after the missing ones above it; at most `depth` of them.
// It calls itself, as `made_upper` of specs/ and fuse-backend-rs do: the way down again is kept by the calls; a loop would want the 16 places in an array first, which is no plainer.
pub(crate) fn create_upper_dir(
    s: &mut [u8],
    upper: &mut Table,
    lower: &[u8],
    k: usize,
    depth: usize,
)
    ensures { (upper.new ≡ (made_upper depth lower.now k (up upper.old s.old)).table) × (s.new ≡ (made_upper depth lower.now k (up upper.old s.old)).state) }
{
    if depth == 0 {
        return;
    }
    let n = state::node_at(s, k);
    if upper::in_upper(n) {
        return;
    }
    let j = parent::place_numbered(s, u64::from(n.parent));
    create_upper_dir(s, upper, lower, j, depth - 1);
    make_directory(s, upper, lower, k);
}

// ---- files

// A file whose parent is there.
fn copy_file(s: &mut [u8], upper: &mut Table, lower: &[u8], k: usize)
    ensures { (upper.new ≡ (copied_file lower.now k (up upper.old s.old)).table) × (s.new ≡ (copied_file lower.now k (up upper.old s.old)).state) }
{
    let n = state::node_at(s, k);
    let r = file_like(upper::top_record(Layers { upper, lower }, n));
    let c = add_for(s, upper, k, r);
    change::put_node(s, k, n.alone(upper::upper_pair(c)));
}

// The node at place `k` in the upper layer, after the missing directories above it.
pub(crate) fn copy_node_up(s: &mut [u8], upper: &mut Table, lower: &[u8], k: usize)
    ensures { (upper.new ≡ (copied_up lower.now k (up upper.old s.old)).table) × (s.new ≡ (copied_up lower.now k (up upper.old s.old)).state) }
{
    let n = state::node_at(s, k);
    if upper::in_upper(n) {
        return;
    }
    if parent::is_directory(Layers { upper, lower }, n) {
        create_upper_dir(s, upper, lower, k, 16);
        return;
    }
    let j = parent::place_numbered(s, u64::from(n.parent));
    create_upper_dir(s, upper, lower, j, 16);
    copy_file(s, upper, lower, k);
}

// ---- the call

// The place of the live node of number `x`, where there is an upper layer: 22, 2 unknown, 30, 2 whiteout.
fn copied_place(s: &[u8], ls: Layers<'_>, x: u64) -> Result<usize, Refusal>
    ensures { result ≡ after_tests (copy_up_before ls.entry.upper.now ls.entry.lower.now s.now x) (Ok (place_numbered s.now x)) }
{
    if !lengths::lengths_fit(s, ls) {
        return Err(Refusal::Einval);
    }
    let k = state::find(s, x).ok_or(Refusal::Enoent)?;
    if ls.upper.len() != 8192 {
        return Err(Refusal::Erofs);
    }
    if parent::is_white(state::node_at(s, k)) {
        return Err(Refusal::Enoent);
    }
    Ok(k)
}

pub fn copy_up(s: &mut [u8], upper: &mut [u8], lower: &[u8], x: u64) -> Result<usize, Refusal>
    ensures { (result ≡ (copy_up_spec upper.old lower.now s.old x).answer) × (s.new ≡ (copy_up_spec upper.old lower.now s.old x).state) × (upper.new ≡ (copy_up_spec upper.old lower.now s.old x).upper) }
{
    let k = copied_place(s, Layers { upper, lower }, x)?;
    let upper = upper.as_mut_array().unwrap();
    let m = room::missing_count(s, k);
    if room::overfull(upper, None, m, m) {
        return Err(Refusal::Enospc);
    }
    copy_node_up(s, upper, lower, k);
    Ok(0)
}
