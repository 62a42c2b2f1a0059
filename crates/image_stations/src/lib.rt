//! The stations of an internet with the tables of an image: where they are, and which tables they
//! hold.
#![tactic(auto)]

mod building;
mod nodes;
mod plans;
mod routers;
mod seats;
mod whereabouts;

pub use building::stations_of;
pub use nodes::node_of;
pub use routers::router_of;
pub use seats::seats_of;
pub use whereabouts::Whereabouts;
