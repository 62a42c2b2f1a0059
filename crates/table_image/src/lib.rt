//! The tables of an internet at one moment: the image, and its bytes.
#![tactic(auto)]

mod cable;
mod checking;
mod context;
mod count;
mod directory;
mod flaw;
mod image;
mod input;
mod item;
mod limits;
mod listed;
mod making;
mod mapping;
mod node;
mod output;
pub mod parts;
mod passing;
mod port;
mod route_rows;
mod router;
mod row;
mod sizes;
mod version;
mod zone_list;
mod zones;

pub use cable::Cable;
pub use directory::{Directory, Place};
pub use flaw::Flaw;
pub use image::{Image, one_spelling, write};
pub use listed::Listed;
pub use mapping::Mapping;
pub use node::{Node, NodeName};
pub use port::Port;
pub use router::Router;
pub use row::Row;
pub use version::Version;
pub use zone_list::ZoneList;
