// Slots of turns, and what undo, redo and a new edit make of the page.
#![tactic(auto)]

pub mod filing;
pub mod moves;
pub mod slots;
