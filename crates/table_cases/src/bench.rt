//! The bench of a case, with which its commands are carried out.

use crate::choosers::Choosing;
use crate::mappers::Mapping;
use crate::names::Naming;
use crate::requesters::Requesting;
use crate::responders::Responding;
use crate::tables::Tables;
use case_words::{Answer, Bench, Stop, Words};
use rtmp::RouteTable;
use std::alloc::Global;

/// The subject of a case, which its first command sets.
#[derive(Drop)]
enum Subject<T: RouteTable> {
    Nothing,
    Tables(Tables<T>),
    Names(Naming),
    Chooser(Choosing),
    Mapper(Mapping),
    Requester(Requesting),
    Responder(Responding),
}

/// The bench of a case: its subject, once there is one. Routing tables are of type `T`.
#[derive(Drop)]
pub(crate) struct Cases<T: RouteTable> {
    alloc: Global,
    subject: Subject<T>,
}

/// The subject that the first command of a case makes.
fn subject_of<T: RouteTable>(alloc: Global, mut words: Words<'_>) -> Result<Subject<T>, Stop> {
    Ok(match words.word() {
        "tables" => Subject::Tables(Tables::new(alloc)?),
        "names" => Subject::Names(Naming::new(alloc)?),
        "chooser" => Subject::Chooser(Choosing::new(alloc, words)?),
        "mapper" => Subject::Mapper(Mapping::new(alloc)?),
        "requester" => Subject::Requester(Requesting::new(alloc, words)?),
        "responder" => Subject::Responder(Responding::new(alloc)?),
        _ => return Err(Stop::Unclear),
    })
}

impl<T: RouteTable> Bench for Cases<T> {
    fn new(alloc: Global) -> Cases<T> {
        Cases {
            alloc,
            subject: Subject::Nothing,
        }
    }

    fn act(&mut self, words: Words<'_>, text: &mut String) -> Answer {
        match &mut self.subject {
            Subject::Nothing => {
                self.subject = subject_of(self.alloc, words)?;
                Ok(())
            }
            Subject::Tables(tables) => tables.act(words, text),
            Subject::Names(naming) => naming.act(words, text),
            Subject::Chooser(choosing) => choosing.act(words, text),
            Subject::Mapper(mapping) => mapping.act(words, text),
            Subject::Requester(requesting) => requesting.act(words, text),
            Subject::Responder(responding) => responding.act(words, text),
        }
    }
}
