//! The audit of an internet's tables: the rules, the verdict, and what a yes says about the routes
//! of datagrams, about zones, about nodes and about mappings.
#![tactic(auto)]

mod cables;
mod judge;
mod laws;
mod lookups;
mod mappings;
mod name_marks;
mod name_order;
mod next;
mod nodes;
mod places;
mod ranges;
mod rows;
mod rule;
mod seen;
mod station_hints;
mod stations;
mod straight;
mod summary;
mod verdict;
mod zone_hints;
mod zone_lists;
mod zone_sets;

pub use judge::audit;
pub use laws::{
    distances_fit, each_step, loops_have_no_walk, mappings_are_true, nodes_are_served,
    one_walk_home, seats_are_addressed, seats_are_unique, the_example_passes, unlisted_is_nowhere,
    words_exclude, zone_lists_agree,
};
pub use rule::{MAX_DISTANCE, Rule};
pub use verdict::{Summary, Verdict};

// Types of the results.
pub use at_base::{Cause, Error, Fault, Place};
