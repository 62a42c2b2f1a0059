//! The questions that are open.

ghost use Rattle.std.specs.Prelude.{IsOkUnless};

use crate::answers::is_answered;
use crate::log::Log;
use crate::question::{Question, wanted_by};
use at_base::Error;
use ddp::View;
use std::alloc::Global;

/// The greatest number of questions that are open at a time. Further ones are counted.
pub(crate) const MAX_OPEN: usize = 1000;

/// The questions that nobody has answered so far, in the order in which they were asked.
#[derive(Drop)]
pub(crate) struct OpenQuestions {
    questions: Vec<Question>,
    untold: u64,
}

impl OpenQuestions {
    /// No questions.
    pub(crate) fn new(alloc: Global) -> OpenQuestions {
        OpenQuestions {
            questions: Vec::new(alloc),
            untold: 0,
        }
    }

    /// The questions.
    pub(crate) fn questions(&self) -> &[Question] {
        self.questions.as_slice()
    }

    /// The number of questions that were asked while too many were open.
    pub(crate) fn untold(&self) -> u64 {
        self.untold
    }

    /// Whether the node has sent the same datagram before, and its question is open.
    fn is_open<L: Log>(&self, log: &L, node: usize, bytes: &[u8]) -> bool {
        for question in &self.questions {
            if question.node == node && log.datagram(question.number) == bytes {
                return true;
            }
        }
        false
    }

    /// Opens the question in a datagram that a node sends, if it has one. A datagram that is sent
    /// again while its question is open asks nothing new. Error: `Memory`.
    pub(crate) fn ask<L: Log>(&mut self, log: &L, node: usize, number: u32) -> Result<(), Error>
        ensures { IsOkUnless result Error.Memory }
    {
        let bytes = log.datagram(number);
        let Ok(view) = View::read(bytes) else {
            return Ok(());
        };
        let Some(wanted) = wanted_by(&view) else {
            return Ok(());
        };
        if self.is_open(log, node, bytes) {
            return Ok(());
        }
        if self.questions.len() < MAX_OPEN {
            self.questions.push(Question {
                node,
                source: view.source(),
                wanted,
                number,
            })?;
        } else {
            self.untold = self.untold.saturating_add(1);
        }
        Ok(())
    }

    /// Closes the questions of a node that are answered by a datagram which the node took.
    pub(crate) fn answer<L: Log>(&mut self, log: &L, node: usize, number: u32) {
        let bytes = log.datagram(number);
        self.questions.retain(|question| {
            question.node != node || !is_answered(question, log.datagram(question.number), bytes)
        });
    }
}
