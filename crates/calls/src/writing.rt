// What a creation and a link share: where the name stands, and the tests of it.
ghost use Rattle.std.specs.Prelude.{◌≡◌};
ghost use Rattle.merge.specs.Nodes.{nodes_of};
ghost use Rattle.merge.specs.Seats.{seat_of, holder};
ghost use Rattle.calls.specs.Parents.{place_numbered};
ghost use Rattle.calls.specs.Room.{whiteout_entry};
ghost use Rattle.calls.specs.Writing.{is_live_name, no_place};

use crate::{parent, room};
use layers::items::Table;
use merge::{load, seat, state};

// Where a name stands in a loaded directory.
#[derive(Clone, Copy)]
pub(crate) struct Target {
    // The directory's place.
    pub(crate) dir: usize,
    // The place of the name's node, or else where a new one belongs.
    pub(crate) seat: Result<usize, usize>,
    // The place of the name's node.
    pub(crate) node: Option<usize>,
    // The place of its upper whiteout's entry.
    pub(crate) whiteout: Option<usize>,
}

// Where the name `x` stands below the node of number `p`.
pub(crate) fn aim(s: &[u8], upper: &Table, p: u64, x: &[u8]) -> Target
    ensures { (result.dir ≡ place_numbered s.now p) × (result.seat ≡ seat_of (nodes_of s.now) p x.now) × (result.node ≡ holder result.seat) × (result.whiteout ≡ whiteout_entry upper.now s.now result.dir result.node x.now) }
{
    let dir = parent::place_numbered(s, p);
    let seat = seat::seat_of(s, p, x);
    let node = seat::holder(seat);
    let whiteout = room::whiteout_entry(s, upper, dir, node, x);
    Target {
        dir,
        seat,
        node,
        whiteout,
    }
}

// Whether the name whose node was looked for is live.
pub(crate) fn is_live_name(s: &[u8], f: Option<usize>) -> bool
    ensures { result ≡ is_live_name s.now f }
{
    f.is_some_and(|j| !parent::is_white(state::node_at(s, j)))
}

// Whether the name has no node, and none can be put in.
pub(crate) fn no_place(s: &[u8], f: Option<usize>) -> bool
    ensures { result ≡ no_place s.now f }
{
    f.is_none() && !load::has_room(s, 1)
}
