//! Images of parts of one internet, over the same cables, in one image.
#![tactic(auto)]

mod again;
mod joining;
mod laws;
mod same_cables;

pub use joining::join;
pub use laws::same_cables_are_equal;
