//! Outcomes of transactions.

ghost use Rattle.std.specs.Prelude.{◌≡◌, ◌≤◌, filter_map, length, slice_get};
ghost use Rattle.std.specs.Option.{option_copied};
ghost use Rattle.atp.specs.Outcomes.{outcome_of};

use crate::ask::AnswerPart;
use crate::transaction::Transaction;
use std::marker::Model;

/// The parts of a complete response, in order. Contracts see them as a list.
#[derive(Debug, Drop)]
pub struct Response {
    parts: [Option<AnswerPart>; 8],
}

impl Model for Response {
    ghost use Rattle.std.specs.Prelude.{List, filter_map};
    ghost use Rattle.atp.specs.declared.ask.AnswerPart.{AnswerPart as PartValue};

    ghost Value = { List PartValue };

    ghost view = { λ r. filter_map (λ part. part) r.parts };
}

/// The part with an index, counting only the parts that exist.
fn part_at(parts: &[Option<AnswerPart>], index: usize) -> Option<&AnswerPart>
    ensures { option_copied result ≡ slice_get (filter_map (λ part. part) parts.now) index }
{
    match parts {
        [] => None,
        [None, rest @ ..] => part_at(rest, index),
        [Some(part), rest @ ..] => {
            if index == 0 {
                Some(part)
            } else {
                part_at(rest, index - 1)
            }
        }
    }
}

/// The number of parts that exist.
fn count(parts: &[Option<AnswerPart>]) -> usize
    ensures value { result ≡ length (filter_map (λ part. part) parts.now) }
    ensures few { result ≤ length parts.now }
{
    match parts {
        [] => 0,
        [None, rest @ ..] => count(rest),
        [Some(_), rest @ ..] => 1 + count(rest),
    }
}

impl Response {
    /// The part with an index, if the response has it.
    pub fn get(&self, index: usize) -> Option<&AnswerPart>
        ensures { option_copied result ≡ slice_get self.now index }
    {
        part_at(self.parts.as_slice(), index)
    }

    /// The number of parts.
    pub fn len(&self) -> usize
        ensures { result ≡ length self.now }
    {
        count(self.parts.as_slice())
    }
}

/// The outcome of a transaction.
///
/// Inside AppleTalk, the chapter on ATP.
#[derive(Debug, Drop)]
pub enum Outcome {
    /// The transaction waits for parts.
    Waiting,
    /// All parts were received.
    Complete(Response),
    /// The transaction was given up: its last request had no complete response in time.
    Failed,
}

/// The outcome of a transaction that was closed.
pub(crate) fn closed(transaction: Transaction) -> Outcome
    ensures { result ≡ outcome_of transaction }
{
    if transaction.failed {
        Outcome::Failed
    } else if transaction.is_complete() {
        Outcome::Complete(Response {
            parts: transaction.came,
        })
    } else {
        Outcome::Waiting
    }
}
