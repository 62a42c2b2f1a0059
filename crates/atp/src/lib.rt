//! ATP, transactions: packets, a requester and a responder.
#![tactic(auto)]

mod answer;
mod ask;
mod laws;
mod outcome;
mod packet;
mod repeats;
mod replying;
mod request;
mod requester;
mod responder;
mod table;
mod transaction;

pub use ask::{AnswerPart, Ask, Peer};
pub use laws::{a_kept_answer_lasts, complete_response, the_end_may_come_early, written_is_read};
pub use outcome::{Outcome, Response};
pub use packet::{HEADER_LEN, MAX_DATA, MAX_PARTS, Packet, write};
pub use repeats::Repeat;
pub use replying::reply;
pub use request::Todo;
pub use requester::{MAX_OPEN, Requester, transactions_are_counted};
pub use responder::{MAX_REQUESTS, Responder, requests_are_few};
