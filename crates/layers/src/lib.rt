// The layer tables: bytes, names, records, entries, the search of one layer, and the table rules.
// A table is asked for many places: a place, or a directory and a name, is an argument beside it as that of a slice's `get`, and no struct holds the two.
#![tactic(auto)]

pub mod bytes;
pub mod change;
mod distinct;
pub mod entry_rules;
mod free_places;
pub mod items;
pub mod kinds;
pub mod names;
pub mod record_rules;
pub mod rules;
pub mod search;
pub mod spots;
mod tally;
