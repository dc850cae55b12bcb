// The meaning of pages, edits and turns, in specs/, and its laws: each function's contract is a theorem about those definitions.
#![tactic(auto)]

pub mod laws;
