// mknod, create and symlink: a new record under a name that is absent or a whiteout.
ghost use Rattle.std.specs.Prelude.{◌≡◌, length, ◌-◌, Ok};
ghost use Rattle.std.specs.Int.Bits.{bit_and};
ghost use Rattle.layers.specs.Kinds.{number_or_zero, kind_of};
ghost use Rattle.calls.specs.Refusal.{after_tests};
ghost use Rattle.calls.specs.Parents.{place_numbered};
ghost use Rattle.calls.specs.Upper.{up};
ghost use Rattle.calls.specs.Creation.{made_record, parent_node, creation_before, creation_tests, prepared, filled, filled_number, created_at, created_in, creation_spec, bad_mode, bad_node, device_of, not_made, is_device, create_spec, mknod_spec, symlink_spec};

use crate::refusal::Refusal;
use crate::writing::Target;
use crate::{copy_up, lengths, parent, room, upper, writing};
use layers::items::{self, Record, Table};
use layers::kinds::Kind;
use merge::node::Node;
use merge::tables::Layers;
use merge::{stacks, state};

// ---- the order of tests

// Of a known parent, where there is an upper layer: 2 whiteout, 20. `parent::parent_place` tries the same two right behind its search, where 30 comes between here (01).
fn parent_node(ls: Layers<'_>, n: Node, k: usize) -> Result<usize, Refusal>
    ensures { result ≡ after_tests (parent_node ls.entry.upper.now ls.entry.lower.now n) (Ok k) }
{
    if parent::is_white(n) {
        return Err(Refusal::Enoent);
    }
    if parent::is_directory(ls, n) {
        return Ok(k);
    }
    Err(Refusal::Enotdir)
}

// The tests before the load; the parent's place. `bad` is a flag for the reason given at `creation`.
fn creation_place(s: &[u8], ls: Layers<'_>, bad: bool, p: u64, x: &[u8]) -> Result<usize, Refusal>
    ensures { result ≡ after_tests (creation_before ls.entry.upper.now ls.entry.lower.now s.now bad p x.now) (Ok (place_numbered s.now p)) }
{
    if !lengths::lengths_fit(s, ls) {
        return Err(Refusal::Einval);
    }
    if layers::names::malformed(x) {
        return Err(Refusal::Einval);
    }
    if bad {
        return Err(Refusal::Einval);
    }
    let k = state::find(s, p).ok_or(Refusal::Enoent)?;
    if ls.upper.len() != 8192 {
        return Err(Refusal::Erofs);
    }
    parent_node(ls, state::node_at(s, k), k)
}

// The tests behind the load.
fn creation_tests(s: &[u8], upper: &Table, w: Target, x: &[u8], r: Record) -> Result<usize, Refusal>
    ensures { result ≡ after_tests (creation_tests upper.now s.now w.dir w.node w.whiteout x.now r) (Ok 0) }
{
    if writing::is_live_name(s, w.node) {
        return Err(Refusal::Eexist);
    }
    if stacks::is_whiteout(r) {
        return Err(Refusal::Eperm);
    }
    if 28 < x.len() {
        return Err(Refusal::Enametoolong);
    }
    if writing::no_place(s, w.node) {
        return Err(Refusal::Enfile);
    }
    let m = 1 + room::missing_count(s, w.dir);
    if room::overfull(upper, w.whiteout, m, m) {
        return Err(Refusal::Enospc);
    }
    Ok(0)
}

// ---- what is written

// The record, its entry and the name's node, in a directory that is in the upper layer; the node's number, 0 where no node could be put in (`named_number` of specs/).
fn fill(s: &mut [u8], upper: &mut Table, w: Target, x: &[u8], r: Record) -> u32
    ensures { (result ≡ filled_number w.dir w.seat x.now (up upper.old s.old)) × (upper.new ≡ (filled w.dir w.seat x.now r (up upper.old s.old)).table) × (s.new ≡ (filled w.dir w.seat x.now r (up upper.old s.old)).state) }
{
    let n = state::node_at(s, w.dir);
    let d = upper::top_of(n);
    let c = upper::add_new(upper, d.number, x, r);
    upper::name_node(s, w.seat, n.number, x, c)
}

// The upper layer without the whiteout and with the parent's path.
fn prepare(s: &mut [u8], upper: &mut Table, lower: &[u8], w: Target)
    ensures { (upper.new ≡ (prepared lower.now w.dir w.node w.whiteout (up upper.old s.old)).table) × (s.new ≡ (prepared lower.now w.dir w.node w.whiteout (up upper.old s.old)).state) }
{
    upper::delete_whiteout(s, upper, w.whiteout, w.node);
    copy_up::create_upper_dir(s, upper, lower, w.dir, 16);
}

// In the loaded directory: the tests, and what they let be written.
fn create_at(
    s: &mut [u8],
    upper: &mut Table,
    lower: &[u8],
    w: Target,
    x: &[u8],
    r: Record,
) -> Result<usize, Refusal>
    ensures { (result ≡ (created_at upper.old lower.now s.old x.now r w.dir w.node w.seat w.whiteout).answer) × (s.new ≡ (created_at upper.old lower.now s.old x.now r w.dir w.node w.seat w.whiteout).state) × (upper.new ≡ (created_at upper.old lower.now s.old x.now r w.dir w.node w.seat w.whiteout).upper) }
{
    creation_tests(s, upper, w, x, r)?;
    prepare(s, upper, lower, w);
    Ok(fill(s, upper, w, x, r) as usize)
}

// ---- the calls

// In the loaded directory of number `p`.
fn create_in(
    s: &mut [u8],
    upper: &mut Table,
    lower: &[u8],
    p: u64,
    x: &[u8],
    r: Record,
) -> Result<usize, Refusal>
    ensures { (result ≡ (created_in upper.old lower.now s.old p x.now r).answer) × (s.new ≡ (created_in upper.old lower.now s.old p x.now r).state) × (upper.new ≡ (created_in upper.old lower.now s.old p x.now r).upper) }
{
    create_at(s, upper, lower, writing::aim(s, upper, p, x), x, r)
}

// A creation; `bad` says that an argument is malformed. A flag, since that is the third test of `creation_before`, behind two of its own.
fn creation(
    s: &mut [u8],
    upper: &mut [u8],
    lower: &[u8],
    bad: bool,
    p: u64,
    x: &[u8],
    r: Record,
) -> Result<usize, Refusal>
    ensures { (result ≡ (creation_spec upper.old lower.now s.old bad p x.now r).answer) × (s.new ≡ (creation_spec upper.old lower.now s.old bad p x.now r).state) × (upper.new ≡ (creation_spec upper.old lower.now s.old bad p x.now r).upper) }
{
    let ls = Layers { upper, lower };
    let j = creation_place(s, ls, bad, p, x)?;
    parent::load_at(s, ls, j)?;
    create_in(s, upper.as_mut_array().unwrap(), lower, p, x, r)
}

// The bits of `permissions` that the umask leaves. A call gets the two one by one (ABI.md); `bad_mode` tests them and `made_record` joins them, and nothing behind a record has the umask.
fn without_umask(permissions: u32, umask: u32) -> u16
    ensures { result ≡ bit_and permissions (4095 - umask) }
{
    (permissions & 4095u32.saturating_sub(umask)) as u16
}

// A new record, its number yet to be given; its kind is a byte, 0 where mknod's number is no kind's (`number_or_zero` in `mknod_spec`).
fn made_record(kind: u8, permissions: u32, umask: u32, device: u64, content: u64) -> Record
    ensures { result ≡ made_record kind permissions umask device content }
{
    Record {
        kind,
        permissions: without_umask(permissions, umask),
        device,
        content,
        ..items::no_record()
    }
}

fn bad_mode(permissions: u32, umask: u32) -> bool
    ensures { result ≡ bad_mode permissions umask }
{
    4095 < permissions || 4095 < umask
}

pub fn create(
    s: &mut [u8],
    upper: &mut [u8],
    lower: &[u8],
    p: u64,
    x: &[u8],
    permissions: u32,
    umask: u32,
) -> Result<usize, Refusal>
    ensures { (result ≡ (create_spec upper.old lower.now s.old p x.now permissions umask).answer) × (s.new ≡ (create_spec upper.old lower.now s.old p x.now permissions umask).state) × (upper.new ≡ (create_spec upper.old lower.now s.old p x.now permissions umask).upper) }
{
    let bad = bad_mode(permissions, umask);
    let r = made_record(u8::from(Kind::Regular), permissions, umask, 0, 0);
    creation(s, upper, lower, bad, p, x, r)
}

pub fn symlink(
    s: &mut [u8],
    upper: &mut [u8],
    lower: &[u8],
    p: u64,
    x: &[u8],
    content: u64,
) -> Result<usize, Refusal>
    ensures { (result ≡ (symlink_spec upper.old lower.now s.old p x.now content).answer) × (s.new ≡ (symlink_spec upper.old lower.now s.old p x.now content).state) × (upper.new ≡ (symlink_spec upper.old lower.now s.old p x.now content).upper) }
{
    let r = made_record(u8::from(Kind::Symlink), 511, 0, 0, content);
    creation(s, upper, lower, false, p, x, r)
}

// ---- mknod's kinds: C hands in a number (ABI.md), and one that is none is refused in its turn among the tests

// The kind of a dirent type number.
fn kind_of(kind: u32) -> Option<Kind>
    ensures { result ≡ kind_of kind }
{
    let n = u8::try_from(kind).ok()?;
    Kind::try_from(n).ok()
}

// The dirent type number; 0 for no kind, whose record is never written.
fn number_of(k: Option<Kind>) -> u8
    ensures { result ≡ number_or_zero k }
{
    k.map_or(0, u8::from)
}

fn not_made(k: Option<Kind>) -> bool
    ensures { result ≡ not_made k }
{
    matches!(k, None | Some(Kind::Directory | Kind::Symlink))
}

fn bad_node(kind: u32, permissions: u32, umask: u32) -> bool
    ensures { result ≡ bad_node kind permissions umask }
{
    not_made(kind_of(kind)) || bad_mode(permissions, umask)
}

fn is_device(k: Option<Kind>) -> bool
    ensures { result ≡ is_device k }
{
    matches!(k, Some(Kind::Character | Kind::Block))
}

fn device_of(kind: u32, device: u64) -> u64
    ensures { result ≡ device_of kind device }
{
    if is_device(kind_of(kind)) { device } else { 0 }
}

pub fn mknod(
    s: &mut [u8],
    upper: &mut [u8],
    lower: &[u8],
    p: u64,
    x: &[u8],
    kind: u32,
    permissions: u32,
    umask: u32,
    device: u64,
) -> Result<usize, Refusal>
    ensures { (result ≡ (mknod_spec upper.old lower.now s.old p x.now kind permissions umask device).answer) × (s.new ≡ (mknod_spec upper.old lower.now s.old p x.now kind permissions umask device).state) × (upper.new ≡ (mknod_spec upper.old lower.now s.old p x.now kind permissions umask device).upper) }
{
    let bad = bad_node(kind, permissions, umask);
    let k = number_of(kind_of(kind));
    let r = made_record(k, permissions, umask, device_of(kind, device), 0);
    creation(s, upper, lower, bad, p, x, r)
}
