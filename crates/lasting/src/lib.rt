//! Laws of plays whose tables are settled: the routers of a world keep the ranges and distances of
//! their rows, tick after tick.
#![tactic(auto)]

mod laws;
mod running;

pub use laws::{
    a_tick_ages_and_tells, a_tick_of_a_settled_world, a_tick_stays_settled,
    plain_frames_leave_tables, routing_data_moves_rows, settled_nodes_ask_no_more,
    settled_worlds_stay_settled, ticks_between_ageings_stay_settled, ticks_stay_settled,
    worlds_without_loss_stay_settled,
};
pub use running::{begin, frozen, go_on};
