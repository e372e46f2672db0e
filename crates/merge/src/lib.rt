// Stack merge, directory scan, and the nodes in the lent state, where ABI.md has them one after another in order.
// A state is asked for many nodes: a place, a number, or a parent and a name is an argument beside it as that of a slice's `get` and `binary_search`, and no struct holds the two.
// `as` stands where std has no `From` between usize and the other width, or where a `TryFrom` would have an error that a bound in the proof excludes.
#![tactic(auto)]

pub mod change;
pub mod forget;
pub mod head;
pub mod load;
pub mod node;
pub mod scan;
pub mod seat;
pub mod stacks;
pub mod state;
pub mod tables;
