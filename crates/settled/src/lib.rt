//! Whether tables that agree with each other stay as they are: whether any routing data that the
//! routers of an internet send each other can still change a route.
#![tactic(auto)]

mod laws;
mod lookups;
mod neighbours;
mod offering;
mod offers;
mod settling;

pub use laws::{
    next_routers_offer, nobody_asks_for_zones, routing_data_keep_distances,
    the_examples_are_judged, what_moves_is_settled, what_moves_passes,
};
pub use neighbours::{Neighbour, age_good, hear_neighbour};
pub use offering::{Offer, nearer_offer};
pub use settling::{Settling, settled};
