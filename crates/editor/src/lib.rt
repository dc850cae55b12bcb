// The editor: begin, turn, show, write and read over lent memory; and the theorems about whole runs.
#![tactic(auto)]

pub mod desk;
pub mod editing;
pub mod files;
pub mod laws;
pub mod playing;
pub mod running;
pub mod state;
