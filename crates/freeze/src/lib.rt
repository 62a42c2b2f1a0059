//! Makes an image from the contents of stations: its cables, the tables of its routers, and its
//! nodes.
#![tactic(auto)]

mod alone;
mod cables;
mod fits;
mod image;
mod mappings;
mod needs;
mod nodes;
mod routers;
mod tables;

pub use alone::image_of_one;
pub use cables::freeze_cable;
pub use image::image_of;
pub use needs::needs_version_2;
pub use nodes::freeze_node;
pub use routers::freeze_router;
