//! The questions that nobody answered, and their lines.

use crate::gathering::gather;
use crate::line::write_question;
use crate::log::Log;
use crate::open_questions::{MAX_OPEN, OpenQuestions};
use crate::reason::Ending;
use frozen::Frozen;
use rtmp::{RouteTable, Routes};
use std::alloc::Global;
use std::io;
use std::io::Write;
use table_image::Image;
use world::World;

/// The greatest number of questions with a line.
const MAX_TOLD: usize = 100;

/// The questions of nodes that nobody answered: lookups, echo requests and requests for zones. Of
/// those that are open at a time it keeps 1,000, and counts those that are asked meanwhile.
#[derive(Drop)]
pub struct Unanswered {
    left: OpenQuestions,
    ending: Ending,
}

impl Unanswered {
    /// Those of a log in which so many routers come before the nodes.
    fn of<L: Log>(alloc: Global, log: &L, routers: usize, ending: Ending) -> Unanswered {
        let mut left = OpenQuestions::new(alloc);
        match gather(alloc, &mut left, log, routers) {
            Ok(()) => Unanswered { left, ending },
            Err(_) => Unanswered {
                left,
                ending: Ending::Unread,
            },
        }
    }

    /// Those of a run over frozen tables, in the order in which they were asked. If memory runs out,
    /// those that are open at that moment.
    pub fn of_run<T: RouteTable>(alloc: Global, run: &Frozen<T>) -> Unanswered {
        let ending = if run.pending_count() > 0 {
            Ending::Pending
        } else {
            Ending::Still
        };
        Unanswered::of(alloc, run, run.image().routers().len(), ending)
    }

    /// Those of a play, whose tables are those of the image, in the order in which they were asked.
    /// If memory runs out, those that are open at that moment.
    pub fn of_world(alloc: Global, world: &World<Routes>, image: &Image) -> Unanswered {
        Unanswered::of(alloc, world, image.routers().len(), Ending::LastTick)
    }

    /// Whether there are none.
    pub fn is_empty(&self) -> bool {
        self.left.questions().is_empty() && self.left.untold() == 0
    }

    /// Writes a line for each, at most 100, and then how many more there are: who asked, for what,
    /// and why there was no answer, where the tables of the image tell it. It writes in small
    /// pieces, so the writer is best a buffered one.
    pub fn write<W: Write>(&self, writer: &mut W, image: &Image) -> io::Result<()> {
        let questions = self.left.questions();
        for question in questions.iter().take(MAX_TOLD) {
            write_question(writer, image, self.ending, question)?;
        }
        match questions.len().saturating_sub(MAX_TOLD) {
            0 => {}
            1 => writeln!(writer, "and 1 more question got no answer")?,
            more => writeln!(writer, "and {more} more questions got no answer")?,
        }
        self.write_untold(writer)
    }

    /// Writes how many questions were asked while too many were open.
    fn write_untold<W: Write>(&self, writer: &mut W) -> io::Result<()> {
        match self.left.untold() {
            0 => Ok(()),
            1 => writeln!(
                writer,
                "1 more was asked while {MAX_OPEN} were open; whether it was answered isn't known"
            ),
            untold => writeln!(
                writer,
                "{untold} more were asked while {MAX_OPEN} were open; whether they were answered \
                    isn't known"
            ),
        }
    }
}
