// What is seen of a canvas, kept in tiles of 32 by 32 pixels in the lent memory, and rebuilt where something has changed.
#![tactic(auto)]

mod building;
pub mod layout;
pub mod rebuilding;
pub mod showing;
pub mod tiling;
