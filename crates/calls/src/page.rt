// A page of a listing, written into the caller's buffer.
ghost use Rattle.std.specs.Prelude.{◌≡◌};
ghost use Rattle.merge.specs.Nodes.{nodes_of};
ghost use Rattle.calls.specs.Parents.{numbered};
ghost use Rattle.calls.specs.Pages.{entry_answer, entry_over, fill, Filled, Paged};
ghost use Rattle.calls.specs.Listing.{type_of, dirent_of, above, child_dirents, listing_of};

use crate::{parent, writer};
use merge::node::Node;
use merge::stacks::Pair;
use merge::state;
use merge::tables::Layers;

// How many bytes were written, and whether entries remain; both are meant in either case.
#[derive(Clone, Copy)]
pub struct Page {
    pub bytes: usize,
    pub remains: bool,
}

// What is asked of a listing: the bytes that it may take, and the index from which it is given.
#[derive(Clone, Copy)]
pub struct Window {
    pub limit: usize,
    pub offset: u64,
}

// ---- one entry

// The type of a layer's record, as the byte that C gets; 0 where there is none (`type_of` of specs/).
fn type_of(ls: Layers<'_>, p: Pair) -> u8
    ensures { result ≡ type_of ls.entry.upper.now ls.entry.lower.now p }
{
    let Some(t) = ls.table(usize::from(p.layer)) else {
        return 0;
    };
    layers::search::kind_at(t, usize::from(p.number))
}

// The entry of the node `n` under a name; one below the offset is passed over. Inlined, as a call at each entry copies the node, and a listing takes up to twice as long.
#[inline(always)]
fn put_entry(
    buf: &mut [u8],
    at: usize,
    w: Window,
    index: u64,
    ls: Layers<'_>,
    n: Node,
    name: &[u8],
) -> Option<usize>
    ensures { (result ≡ entry_answer w.offset w.limit buf.old at index (dirent_of ls.entry.upper.now ls.entry.lower.now name.now n)) × (buf.new ≡ entry_over w.offset w.limit buf.old at index (dirent_of ls.entry.upper.now ls.entry.lower.now name.now n)) }
{
    if index < w.offset {
        return Some(at);
    }
    let p = n.stack[0];
    let k = type_of(ls, p);
    writer::append_dirent(buf, at, w.limit, u64::from(p.number), index, k, name)
}

// ---- the entries of the children, and the page; the walk goes by `child_from`, which of the nodes passed reads the parent's number alone; a range would read each node out

fn put_children(buf: &mut [u8], start: usize, w: Window, s: &[u8], ls: Layers<'_>, x: u64) -> Page
    ensures { ◌≡◌ {A = Filled} (record { page = result; buffer = buf.new }) (fill w.offset w.limit 2 start buf.old (child_dirents ls.entry.upper.now ls.entry.lower.now x (nodes_of s.now))) }
{
    let mut k = 0;
    let mut i = 2;
    let mut at = start;
    while let Some(j) = state::child_from(s, x, k) {
        k = j + 1;
        let n = state::node_at(s, j);
        if !parent::is_white(n) {
            let Some(next) = put_entry(buf, at, w, i, ls, n, state::name_at(s, j)) else {
                return Page {
                    bytes: at,
                    remains: true,
                };
            };
            at = next;
            i += 1;
        }
    }
    Page {
        bytes: at,
        remains: false,
    }
}

// The node that ".." names.
fn node_above(s: &[u8], x: u64) -> Node
    ensures { result ≡ numbered s.now (above s.now x) }
{
    if x == 1 {
        return parent::node_numbered(s, 1);
    }
    let n = parent::node_numbered(s, x);
    parent::node_numbered(s, u64::from(n.parent))
}

fn put_listing(buf: &mut [u8], w: Window, s: &[u8], ls: Layers<'_>, x: u64) -> Page
    ensures { ◌≡◌ {A = Filled} (record { page = result; buffer = buf.new }) (fill w.offset w.limit 0 0 buf.old (listing_of ls.entry.upper.now ls.entry.lower.now s.now x)) }
{
    let n = parent::node_numbered(s, x);
    let Some(a) = put_entry(buf, 0, w, 0, ls, n, b".") else {
        return Page {
            bytes: 0,
            remains: true,
        };
    };
    let m = node_above(s, x);
    let Some(b) = put_entry(buf, a, w, 1, ls, m, b"..") else {
        return Page {
            bytes: a,
            remains: true,
        };
    };
    put_children(buf, b, w, s, ls, x)
}

// The page of the directory of number `x` that is asked for, in the first bytes of the buffer.
pub fn write_page(buf: &mut [u8], w: Window, s: &[u8], ls: Layers<'_>, x: u64) -> Page
    ensures { Paged w.limit w.offset buf.old (listing_of ls.entry.upper.now ls.entry.lower.now s.now x) result buf.new }
{
    put_listing(buf, w, s, ls, x)
}
