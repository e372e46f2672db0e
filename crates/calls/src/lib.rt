// The calls, each one total function of the lent memory, and the same as C has them.
// A call that writes the upper layer changes the state and that: the two go from function to function as they are lent. A struct of two lent to be written got no proof (tried in replay).
// A node's place or number beside the state is an argument as that of a slice's `get`: one call asks for the source, the parent and the child of one state.
// `as` stands where std has no `From` between usize and the other width, or where a `TryFrom` would have an error that a bound in the proof excludes.
#![tactic(auto)]

pub mod copy_up;
pub mod count;
pub mod creation;
pub mod dirent;
pub mod face;
pub mod forget;
pub mod import;
pub mod lengths;
pub mod link;
pub mod listing;
pub mod lookup;
pub mod node;
pub mod page;
pub mod parent;
pub mod refusal;
pub mod room;
pub mod upper;
pub mod writer;
pub mod writing;
