// The plain engine: every edit in the plainest way, everything made anew from the blank page, no tiles.
#![tactic(auto)]

pub mod applying;
pub mod engine;
pub mod files;
pub mod laws;
pub mod seeing;
pub mod shown;
pub mod state;
