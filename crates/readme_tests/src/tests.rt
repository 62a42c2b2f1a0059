//! The examples of READMEs, word for word, each on a few values, and calls of laws. A law is the
//! contract of a function that does nothing. Each test passes whichever single allocation fails: on
//! `Memory` the example is called again. What holds many other values is let go of by a call of
//! `drop`, since each way out that drops it by itself is slow to prove.

mod of_aarp;
mod of_at_base;
mod of_atp;
mod of_cable_model;
mod of_cabled;
mod of_capture_feed;
mod of_captures;
mod of_ddp;
mod of_echo;
mod of_end_node;
mod of_ethertalk;
mod of_learning;
mod of_nbp;
mod of_pcapng;
mod of_port;
mod of_router;
mod of_rtmp;
mod of_survey;
mod of_text;
mod of_zip_zones;

use at_base::Error;
use std::alloc::Global;

/// An example, by the crate whose README has it.
#[derive(Clone, Copy, Debug, PartialEq)]
enum Example {
    Aarp,
    AtBase,
    Atp,
    CableModel,
    Cabled,
    CaptureFeed,
    Captures,
    Ddp,
    Echo,
    EndNode,
    Ethertalk,
    Learning,
    Nbp,
    Pcapng,
    Port,
    Router,
    Rtmp,
    Survey,
    Text,
    ZipZones,
}

/// Whether an example gives what its README says.
fn holds(alloc: Global, example: Example) -> Result<bool, Error> {
    match example {
        Example::Aarp => of_aarp::a_port_has_the_address_that_it_tried(alloc),
        Example::AtBase => of_at_base::addresses_are_judged(alloc),
        Example::Atp => of_atp::a_request_and_its_repeat_are_answered(alloc),
        Example::CableModel => of_cable_model::nobody_hears_what_is_lost(alloc),
        Example::Cabled => of_cabled::a_router_probes(alloc),
        Example::CaptureFeed => of_capture_feed::a_cut_capture_has_its_packet(alloc),
        Example::Captures => of_captures::a_run_and_a_play_are_captured(alloc),
        Example::Ddp => of_ddp::a_ping_is_sent(alloc),
        Example::Echo => of_echo::a_request_is_answered_and_a_reply_is_not(alloc),
        Example::EndNode => of_end_node::one_datagram_is_made(alloc),
        Example::Ethertalk => of_ethertalk::a_datagram_is_read_back(alloc),
        Example::Learning => of_learning::a_router_asks_its_neighbour(alloc),
        Example::Nbp => of_nbp::a_lookup_is_answered(alloc),
        Example::Pcapng => of_pcapng::a_capture_has_these_bytes(alloc),
        Example::Port => of_port::a_datagram_waits(alloc),
        Example::Router => of_router::a_router_hands_on(alloc),
        Example::Rtmp => of_rtmp::the_way_is_found(alloc),
        Example::Survey => of_survey::it_listens_for_sixty_ticks(alloc),
        Example::Text => of_text::a_line_has_an_address_and_bytes(alloc),
        Example::ZipZones => of_zip_zones::the_cable_of_blue_is_found(alloc),
    }
}

/// The first of the examples that doesn't hold, with what came of it.
fn first_wrong(alloc: Global, examples: &[Example]) -> Option<(Example, Result<bool, Error>)> {
    for example in examples {
        let found = match holds(alloc, *example) {
            Err(Error::Memory) => holds(alloc, *example),
            answer => answer,
        };
        if found != Ok(true) {
            return Some((*example, found));
        }
    }
    None
}

#[test]
fn texts_and_packets_are_read_and_written(rt: HostRuntime) {
    let examples = [
        Example::AtBase,
        Example::Text,
        Example::Ddp,
        Example::Echo,
        Example::Nbp,
        Example::Atp,
    ];
    assert_eq!(rt; first_wrong(rt.alloc(), &examples), None);
}

#[test]
fn tables_tell_the_way_and_what_to_ask(rt: HostRuntime) {
    let examples = [Example::Rtmp, Example::ZipZones, Example::Learning];
    assert_eq!(rt; first_wrong(rt.alloc(), &examples), None);
}

#[test]
fn stations_choose_addresses_send_and_hand_on(rt: HostRuntime) {
    let examples = [
        Example::Aarp,
        Example::Port,
        Example::EndNode,
        Example::Router,
        Example::Cabled,
        Example::Survey,
    ];
    assert_eq!(rt; first_wrong(rt.alloc(), &examples), None);
}

#[test]
fn cables_carry_and_lose_frames_and_are_captured(rt: HostRuntime) {
    let examples = [
        Example::CableModel,
        Example::Ethertalk,
        Example::Pcapng,
        Example::CaptureFeed,
        Example::Captures,
    ];
    assert_eq!(rt; first_wrong(rt.alloc(), &examples), None);
}

/// The law of `atp` on a responder's requests is called with the README's responder.
#[test]
fn laws_are_called() {
    aarp::written_is_read();
    atp::written_is_read();
    atp::complete_response();
    atp::the_end_may_come_early();
    atp::a_kept_answer_lasts();
    cable_model::taking_ends_one_pair();
    capture_feed::first_block_comes();
    ddp::written_is_read();
    ddp::hops_leave_the_body();
    ddp::set_hops_are_read();
    ddp::padding_leaves_the_body();
    ddp::value_agrees_with_bytes();
    ddp::written_has_no_hops();
    nbp::written_is_read();
    nbp::requests_have_one_tuple();
    nbp::functions_leave_the_key();
    nbp::trailing_bytes_leave_the_key();
    pcapng::section_begins();
    pcapng::interface_is_described();
    pcapng::packet_is_seen();
    pcapng::header_is_opened();
    pcapng::record_is_seen();
    rtmp::data_is_read_back();
}
