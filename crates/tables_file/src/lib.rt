//! Tables files, in TOML: what each router and node of an internet holds, read into an image.
#![tactic(auto)]

mod cable;
mod field;
mod made_up;
mod mapping;
mod name;
mod node;
mod parts;
mod port;
mod reading;
mod rising;
mod router;
mod row;
mod top;
mod value;
mod zone_list;

pub use reading::read;
