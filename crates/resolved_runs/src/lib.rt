//! Which transcripts of an internet with frozen tables are legal where stations resolve addresses.
#![tactic(auto)]

mod laws;

pub use laws::{
    a_full_ring_gives_up_its_oldest, carriage_with_resolution, conservation_with_resolution,
    datagrams_are_heard, examples_have_plain_transcripts, full_rings_give_up_their_oldest,
    held_datagrams_are_asked_for, hops_left_with_resolution, laws_exclude_with_resolution,
    lookups_with_resolution, nothing_is_given_up_without_losses, plain_legs_have_plain_fates,
    plain_transcripts_are_legal, the_absent_are_held, the_mapped_echo_is_legal,
    the_resolved_echo_is_legal, they_are_legal_without_mistakes, words_exclude_with_resolution,
};
