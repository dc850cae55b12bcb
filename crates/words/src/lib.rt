// Turns as words that a person reads and types on a line, both ways; scripts of them, pages printed, and what else programs share.
#![tactic(auto)]

mod asking;
pub mod call;
pub mod digits;
mod forms;
pub mod laws;
pub mod lines;
pub mod printing;
pub mod programs;
pub mod saving;
pub mod script;
pub mod showing;
mod split;
mod table;
pub mod taking;
pub mod turns;
