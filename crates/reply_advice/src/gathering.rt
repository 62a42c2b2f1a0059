//! Goes through a transcript for the questions of nodes and their answers.

ghost use Rattle.std.specs.Prelude.{IsOkUnless};

use crate::answers::is_answer;
use crate::frames::Frames;
use crate::log::Log;
use crate::open_questions::OpenQuestions;
use at_base::Error;
use cable_model::Entry;
use station::Kind;
use std::alloc::Global;

/// The number of a node, from 0, by that of its station. Stations are the routers, then the nodes.
fn node_of(station: u16, routers: usize) -> Option<usize> {
    usize::from(station).checked_sub(routers)
}

/// Opens the questions that nodes ask in a log, and closes those that they get an answer to. Error:
/// `Memory`.
pub(crate) fn gather<L: Log>(
    alloc: Global,
    questions: &mut OpenQuestions,
    log: &L,
    routers: usize,
) -> Result<(), Error>
    ensures { IsOkUnless result Error.Memory }
{
    let mut frames = Frames::new(alloc);
    for entry in log.entries() {
        match *entry {
            Entry::Sent { station, bytes } => {
                if let Some(node) = node_of(station, routers) {
                    questions.ask(log, node, bytes)?;
                }
            }
            Entry::Put {
                stamp,
                kind: Kind::Ddp,
                bytes,
                ..
            } => {
                if is_answer(log.datagram(bytes)) {
                    frames.put(stamp, bytes)?;
                }
            }
            Entry::Took { stamp, station } => {
                if let (Some(node), Some(number)) = (
                    node_of(station, routers),
                    frames.number(stamp),
                ) {
                    questions.answer(log, node, number);
                }
            }
            _ => {}
        }
    }
    Ok(())
}
