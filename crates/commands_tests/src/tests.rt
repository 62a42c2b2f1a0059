//! Commands with readers that fail, are interrupted or return a few bytes at a time, and with
//! writers that fail or buffer bytes; and the reports of each tick. Each test passes whichever
//! single allocation fails: on `Memory` it calls again. The program's output for images, scripts
//! and internet files is compared by the cases of `program_cases`, and what is made of tables files
//! and printed of images by those of `tables_cases`.

mod capturing;
mod fakes;
mod images;
mod joining;
mod making;
mod outputs;
mod printing;
mod progress;
mod texts;

use at_base::Error;
use std::alloc::Global;

/// An internet without cables, routers and nodes.
const EMPTY: &[u8] = b"ATIM\x01\0\0\0";

/// The line of its verdict.
const EMPTY_YES: &[u8] = b"yes: 0 cables, 0 routers, 0 nodes, 0 rows, greatest distance 0\n";

/// Whether an answer is the one wanted. Where memory was refused, nothing is known.
fn is_answer(answer: Result<bool, Error>, wanted: Result<bool, Error>) -> Result<bool, Error> {
    match answer {
        Err(Error::Memory) => Err(Error::Memory),
        answer => Ok(answer == wanted),
    }
}

/// Something that is tried.
#[derive(Clone, Copy, Debug, PartialEq)]
enum Trial {
    Buffer,
    Captures,
    EarlierFailure,
    EndlessImage,
    FailingReads,
    FailingWrites,
    FaultBeforeFailure,
    Flushes,
    ImageInPieces,
    JoinedCalls,
    JoinedImages,
    LongText,
    MadeImage,
    MadeReads,
    MadeWrites,
    NoImages,
    NoText,
    PrintedAtLength,
    PrintedReads,
    PrintedWrites,
    RepeatedReads,
    Returned,
    ThirdRead,
    Ticks,
}

/// Whether a trial comes out as it should.
fn holds(alloc: Global, trial: Trial) -> Result<bool, Error> {
    match trial {
        Trial::Buffer => texts::a_buffer_grows_by_a_quarter_and_seldom(alloc),
        Trial::Captures => capturing::captures_have_their_place(alloc),
        Trial::EarlierFailure => images::an_earlier_failure_refuses_nothing(alloc),
        Trial::EndlessImage => images::an_image_without_end_is_refused_at_its_first_fault(alloc),
        Trial::FailingReads => texts::a_read_that_fails_is_a_read_fault(alloc),
        Trial::FailingWrites => Ok(outputs::a_write_that_fails_is_a_write_fault(alloc)),
        Trial::FaultBeforeFailure => {
            images::a_fault_in_bytes_that_were_read_comes_before_a_failure(alloc)
        }
        Trial::Flushes => outputs::text_is_flushed_after_it_is_written(alloc),
        Trial::ImageInPieces => images::an_image_may_come_in_pieces(alloc),
        Trial::JoinedCalls => joining::every_call_of_a_joining_may_fail(alloc),
        Trial::JoinedImages => joining::images_are_joined_or_refused(alloc),
        Trial::LongText => texts::a_long_text_comes_whole(alloc),
        Trial::MadeImage => {
            making::the_image_is_written_or_the_text_that_is_at_fault_returned(alloc)
        }
        Trial::MadeReads => making::every_read_of_a_text_may_fail(alloc),
        Trial::MadeWrites => making::every_write_of_lines_and_images_may_fail(alloc),
        Trial::NoImages => printing::nothing_is_printed_of_bytes_that_are_no_image(alloc),
        Trial::NoText => texts::a_text_is_refused_at_the_piece_that_no_text_has(alloc),
        Trial::PrintedAtLength => printing::every_write_of_a_long_text_may_fail(alloc),
        Trial::PrintedReads => printing::every_read_of_what_is_printed_may_fail(alloc),
        Trial::PrintedWrites => printing::every_write_of_what_is_printed_may_fail(alloc),
        Trial::RepeatedReads => texts::reads_are_tried_again_or_given_up(alloc),
        Trial::Returned => images::an_audit_returns_its_verdict_or_the_byte_at_the_flaw(alloc),
        Trial::ThirdRead => images::nothing_is_written_of_an_input_whose_third_read_fails(alloc),
        Trial::Ticks => progress::each_tick_is_told(alloc),
    }
}

/// The first of the trials that comes out otherwise, with what came of it.
fn first_wrong(alloc: Global, trials: &[Trial]) -> Option<(Trial, Result<bool, Error>)> {
    for trial in trials {
        let found = match holds(alloc, *trial) {
            Err(Error::Memory) => holds(alloc, *trial),
            answer => answer,
        };
        if found != Ok(true) {
            return Some((*trial, found));
        }
    }
    None
}

#[test]
fn texts_are_read_to_their_end_or_given_up(rt: HostRuntime) {
    let trials = [
        Trial::FailingReads,
        Trial::RepeatedReads,
        Trial::NoText,
        Trial::Buffer,
        Trial::LongText,
    ];
    assert_eq!(rt; first_wrong(rt.alloc(), &trials), None);
}

#[test]
fn images_are_audited_or_refused(rt: HostRuntime) {
    let trials = [
        Trial::ImageInPieces,
        Trial::EarlierFailure,
        Trial::Returned,
        Trial::FaultBeforeFailure,
        Trial::EndlessImage,
        Trial::ThirdRead,
    ];
    assert_eq!(rt; first_wrong(rt.alloc(), &trials), None);
}

#[test]
fn texts_are_printed_and_flushed(rt: HostRuntime) {
    let trials = [
        Trial::FailingWrites,
        Trial::Flushes,
        Trial::PrintedReads,
        Trial::NoImages,
        Trial::PrintedWrites,
        Trial::PrintedAtLength,
    ];
    assert_eq!(rt; first_wrong(rt.alloc(), &trials), None);
}

#[test]
fn lines_images_and_captures_are_written_in_order(rt: HostRuntime) {
    let trials = [
        Trial::MadeReads,
        Trial::MadeWrites,
        Trial::MadeImage,
        Trial::JoinedImages,
        Trial::JoinedCalls,
        Trial::Captures,
        Trial::Ticks,
    ];
    assert_eq!(rt; first_wrong(rt.alloc(), &trials), None);
}
