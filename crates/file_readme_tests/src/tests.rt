//! The examples of READMEs, word for word, each on a few values, and calls of laws. A law is the
//! contract of a function that does nothing. Each test passes whichever single allocation fails: on
//! `Memory` the example is called again. What holds many other values is let go of by a call of
//! `drop`, since each way out that drops it by itself is slow to prove.

mod of_audit;
mod of_drawing;
mod of_file_advice;
mod of_file_entries;
mod of_image_feed;
mod of_image_verdict;
mod of_image_zones;
mod of_internet_file;
mod of_joined;
mod of_judge;
mod of_script;
mod of_table_image;
mod of_tables_file;
mod of_tables_text;
mod of_trace_lines;
mod three_cables;

use at_base::Error;
use std::alloc::Global;

/// An example, by the crate whose README has it, or something else that is tried here.
#[derive(Clone, Copy, Debug, PartialEq)]
enum Example {
    Audit,
    BadLines,
    Drawing,
    FileAdvice,
    FileEntries,
    FirstWords,
    ImageFeed,
    ImageVerdict,
    ImageZones,
    InternetFile,
    Joined,
    JudgedBytes,
    JudgedByToml,
    Script,
    TableImage,
    TablesFile,
    TablesText,
    TraceLines,
}

/// Whether an example gives what its README says.
fn holds(alloc: Global, example: Example) -> Result<bool, Error> {
    match example {
        Example::Audit => of_audit::the_longest_way_is_told(alloc),
        Example::BadLines => of_script::a_bad_line_is_refused_wherever_it_is_cut(alloc),
        Example::Drawing => of_drawing::images_are_drawn(alloc),
        Example::FileAdvice => of_file_advice::faults_are_told(alloc),
        Example::FileEntries => of_file_entries::seats_are_counted(alloc),
        Example::FirstWords => of_script::a_first_word_is_refused_at_once(alloc),
        Example::ImageFeed => of_image_feed::an_image_is_fed(alloc),
        Example::ImageVerdict => of_image_verdict::images_are_reported(alloc),
        Example::ImageZones => of_image_zones::cables_are_counted(alloc),
        Example::InternetFile => of_internet_file::datagrams_are_counted(alloc),
        Example::Joined => of_joined::parts_are_joined(alloc),
        Example::JudgedBytes => Ok(of_judge::bytes_are_judged()),
        Example::JudgedByToml => Ok(of_judge::what_toml_takes_is_let_through(alloc)),
        Example::Script => of_script::a_script_may_be_cut_anywhere(alloc),
        Example::TableImage => of_table_image::rows_are_printed(alloc),
        Example::TablesFile => of_tables_file::tables_files_are_judged_or_refused(alloc),
        Example::TablesText => of_tables_text::images_are_shown(alloc),
        Example::TraceLines => of_trace_lines::a_lost_frame_is_printed(alloc),
    }
}

/// The first of the examples that doesn't hold, with what came of it.
fn first_wrong(alloc: Global, examples: &[Example]) -> Option<(Example, Result<bool, Error>)> {
    for example in examples {
        let found = match holds(alloc, *example) {
            Err(Error::Memory) => holds(alloc, *example),
            answer => answer,
        };
        if found != Ok(true) {
            return Some((*example, found));
        }
    }
    None
}

#[test]
fn images_are_fed_read_judged_and_drawn(rt: HostRuntime) {
    let examples = [
        Example::ImageFeed,
        Example::TableImage,
        Example::ImageZones,
        Example::Audit,
        Example::ImageVerdict,
        Example::Joined,
        Example::Drawing,
        Example::TablesText,
    ];
    assert_eq!(rt; first_wrong(rt.alloc(), &examples), None);
}

#[test]
fn files_in_toml_are_read_and_their_faults_told(rt: HostRuntime) {
    let examples = [
        Example::JudgedBytes,
        Example::JudgedByToml,
        Example::FileEntries,
        Example::FileAdvice,
        Example::InternetFile,
        Example::TablesFile,
    ];
    assert_eq!(rt; first_wrong(rt.alloc(), &examples), None);
}

#[test]
fn scripts_are_read_in_pieces_and_traces_printed(rt: HostRuntime) {
    let examples = [
        Example::Script,
        Example::BadLines,
        Example::FirstWords,
        Example::TraceLines,
    ];
    assert_eq!(rt; first_wrong(rt.alloc(), &examples), None);
}

#[test]
fn laws_are_called() {
    audit::one_walk_home();
    audit::each_step();
    audit::distances_fit();
    audit::unlisted_is_nowhere();
    audit::seats_are_unique();
    audit::nodes_are_served();
    audit::the_example_passes();
    audit::loops_have_no_walk();
    audit::words_exclude();
    joined::same_cables_are_equal();
    script::scripts_have_no_bad_line();
    table_image::one_spelling();
}
