// The page in lent memory: its layout, blank pages, layers and their order, selections by rectangle, fill.
#![tactic(auto)]

pub mod applying;
pub mod blanking;
pub mod filling;
pub mod layers;
pub mod layout;
pub mod merging;
pub mod selecting;
pub mod state;
