//! Files that a command writes: each is written whole, or stays as it was.
#![tactic(auto)]

mod over;
mod part;
mod place;
mod placing;
mod shared;
mod whole_file;

pub use place::{FileId, Target};
pub use placing::{Ended, Placing, Unwritten};
pub use shared::{Identity, Named, first_shared};
pub use whole_file::WholeFile;
