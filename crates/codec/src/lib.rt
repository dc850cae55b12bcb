// Turns and files in bytes. Strokes and curves are held by where their points and numbers start in the bytes.
#![tactic(auto)]

pub mod edits;
pub mod file;
pub mod kinds;
pub mod laws;
pub mod listing;
pub mod read;
pub(crate) mod sinks;
pub mod write;
