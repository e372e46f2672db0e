// A node as a value: read from 52 bytes, laid over them, and changed by its methods.
ghost use Rattle.std.specs.Prelude.{◌≡◌, ◌+◌, ◌≤◌, ◌<◌, length, drop};
ghost use Rattle.layers.specs.Bytes.{over, part};
ghost use Rattle.merge.specs.Nodes.{node_of, pairs_of, pair_bytes, number_bytes, rest_bytes, node_bytes, node_name, FitsNumbers, FitsArrays, FitsNode, no_node};
ghost use Rattle.merge.specs.Methods.{with_number, with_white, with_loaded, with_stack, forgotten, counted, topped, alone};

use crate::stacks::{NO_PAIR, Pair};

// A node as it lies in the memory.
pub type Bytes = [u8; 52];

// Every byte of a node's 52 is a field. The marks are bytes, not bools: lent memory may hold any, and `is_loaded` of specs/ and `is_white` of calls answer for any.
#[derive(Clone, Copy)]
pub struct Node {
    pub number: u32,
    pub parent: u32,
    pub count: u32,
    pub white: u8,
    pub loaded: u8,
    pub depth: u8,
    pub length: u8,
    pub stack: [Pair; 4],
    pub name: [u8; 28],
}

// ---- the methods: each takes the node and hands the changed one back

#[tactic(auto, unfolding(crate::specs::Methods::with_count, crate::specs::Methods::with_stack, crate::specs::Methods::with_number, crate::specs::Methods::with_white, crate::specs::Methods::with_loaded, crate::specs::Methods::fallen, crate::specs::Methods::risen, crate::specs::Methods::deeper, crate::specs::Methods::pushed))]
impl Node {
    // "The count falls by the amount, or to 0 if the amount exceeds it."
    pub fn forget(self, amount: u64) -> Node
        ensures { result ≡ forgotten self amount }
    {
        Node {
            count: u32::try_from(amount).map_or(0, |a| self.count.saturating_sub(a)),
            ..self
        }
    }

    // A lookup counted; a count at 4294967295 stays.
    pub fn counted(self) -> Node
        ensures { result ≡ counted self }
    {
        Node {
            count: self.count.saturating_add(1),
            ..self
        }
    }

    // A record put in front of the stack, the others one place down.
    pub fn topped(self, top: Pair) -> Node
        ensures { result ≡ topped self top }
    {
        let [p, q, r, _] = self.stack;
        self.with_stack([top, p, q, r], self.depth.min(3) + 1)
    }

    // The stack becomes this record alone.
    pub fn alone(self, top: Pair) -> Node
        ensures { result ≡ alone self top }
    {
        self.with_stack([top, NO_PAIR, NO_PAIR, NO_PAIR], 1)
    }

    pub fn with_stack(self, stack: [Pair; 4], depth: u8) -> Node
        ensures { result ≡ with_stack self stack depth }
    {
        Node {
            stack,
            depth,
            ..self
        }
    }

    pub fn with_number(self, number: u32) -> Node
        ensures { result ≡ with_number self number }
    {
        Node { number, ..self }
    }

    // Its name, without the zeros behind it.
    pub fn name_bytes(&self) -> &[u8]
        ensures { result.now ≡ node_name self.now }
    {
        &self.name[..usize::from(self.length.min(28))]
    }

    // A byte of docs/ABI.md: `with_white` of specs/ speaks of any.
    pub fn with_white(self, white: u8) -> Node
        ensures { result ≡ with_white self white }
    {
        Node { white, ..self }
    }

    // Likewise.
    pub fn with_loaded(self, loaded: u8) -> Node
        ensures { result ≡ with_loaded self loaded }
    {
        Node { loaded, ..self }
    }
}

// ---- a node's bytes

// The four written out, as in `pairs_of` of specs/: the check finds this alone, where a loop would want an invariant.
#[tactic(auto, unfolding(crate::specs::Nodes::pairs_of))]
fn stack_of(b: &Bytes) -> [Pair; 4]
    ensures { result ≡ pairs_of (drop 16 b.now) }
{
    let pair = |i: usize| Pair {
        layer: b[i],
        number: b[i + 1],
    };
    [pair(16), pair(18), pair(20), pair(22)]
}

// The node that 52 bytes hold.
impl<'a> From<&'a Bytes> for Node {
    ghost from_gives = { λ b r. r ≡ node_of b.now };

    fn from(b: &'a Bytes) -> Node {
        Node {
            number: layers::bytes::number_in::<u32>(b, 0),
            parent: layers::bytes::number_in::<u32>(b, 4),
            count: layers::bytes::number_in::<u32>(b, 8),
            white: b[12],
            loaded: b[13],
            depth: b[14],
            length: b[15],
            stack: stack_of(b),
            name: layers::names::padded(&b[24..]),
        }
    }
}

// No node, as `no_node` of specs/ has it: every byte 0.
pub fn no_node() -> Node
    ensures { result ≡ no_node }
{
    Node {
        number: 0,
        parent: 0,
        count: 0,
        white: 0,
        loaded: 0,
        depth: 0,
        length: 0,
        stack: [NO_PAIR; 4],
        name: [0; 28],
    }
}

#[tactic(auto, using(crate::proofs::NodeLaws::numbers_laid, crate::proofs::NodeLaws::numbers_fit))]
fn lay_numbers(t: &mut [u8], a: usize, n: Node)
    requires { a + 12 ≤ length t.old }
    ensures { (t.new ≡ over t.old a (number_bytes n)) × FitsNumbers n }
{
    layers::bytes::put_number(t, a, n.number);
    layers::bytes::put_number(t, a + 4, n.parent);
    layers::bytes::put_number(t, a + 8, n.count);
}

// The four written out, as in `pair_bytes` of specs/, for the reason given at `stack_of`.
#[tactic(auto, unfolding(crate::specs::Nodes::pair_bytes))]
fn pair_bytes(ps: [Pair; 4]) -> [u8; 8]
    ensures { (result ≡ pair_bytes ps) × (length ps ≡ 4) }
{
    let [p, q, r, t] = ps;
    [
        p.layer, p.number, q.layer, q.number, r.layer, r.number, t.layer, t.number,
    ]
}

#[tactic(auto, using(crate::proofs::NodeLaws::rest_laid, crate::proofs::NodeLaws::arrays_fit))]
fn lay_rest(t: &mut [u8], a: usize, n: Node)
    requires { a + 40 ≤ length t.old }
    ensures { (t.new ≡ over t.old a (rest_bytes n)) × FitsArrays n }
{
    let head = [n.white, n.loaded, n.depth, n.length];
    layers::bytes::lay(t, a, &head);
    layers::bytes::lay(t, a + 4, &pair_bytes(n.stack));
    layers::bytes::lay(t, a + 12, &n.name);
}

// The node laid over the 52 bytes from `a` on; the contract hands on that its fields fit them.
#[tactic(auto, using(crate::proofs::NodeLaws::node_laid, crate::proofs::NodeLaws::node_fits))]
pub(crate) fn lay_node(t: &mut [u8], a: usize, n: Node)
    requires { a + 52 ≤ length t.old }
    ensures { (t.new ≡ over t.old a (node_bytes n)) × FitsNode n }
{
    lay_numbers(t, a, n);
    lay_rest(t, a + 12, n);
}
