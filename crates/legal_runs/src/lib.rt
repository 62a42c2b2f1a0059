//! Which transcripts of an internet with frozen tables are legal, and laws that hold for each of
//! them.
#![tactic(auto)]

mod laws;
mod losses;

pub use laws::{
    carriage, conservation, each_end_is_legal, hops_left, laws_exclude, lookups,
    others_are_no_requests, the_echo_is_legal, the_lookup_is_legal, words_exclude,
};
pub use losses::{
    carriage_with_losses, conservation_with_losses, hops_left_with_losses,
    laws_exclude_with_losses, legal_is_lossy, lookups_with_losses, losses_exclude,
    the_losses_are_legal, words_exclude_with_losses,
};
