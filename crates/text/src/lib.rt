// Layer tables as text: the one encoder of the tables that the programs run on, and what they print in one form. docs/TEXT.md describes the lines.
#![tactic(auto)]

pub mod encode;
pub mod memory;
pub mod names;
pub mod output;
pub mod stacks;
pub mod words;
