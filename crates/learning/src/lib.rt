//! Learning and aging of a router's routing table and zone table, as calls without side effects.
#![tactic(auto)]

mod asking;
mod forgetting;
mod laws;
mod lists;
mod names;
mod query;
mod routes;
mod zones;

pub use asking::queries;
pub use forgetting::forget;
pub use laws::{the_examples_of_ageing, the_examples_of_queries, the_examples_of_routes_heard};
pub use query::Query;
pub use routes::learn_routes;
pub use zones::learn_zones;
