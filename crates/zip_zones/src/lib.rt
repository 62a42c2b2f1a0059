//! Zone lists: a router's zones for each range of an internet, and ZIP packets.
#![tactic(auto)]

mod adding;
mod answer;
mod appending;
mod change;
mod due;
mod entries;
mod entry;
mod index;
mod known;
mod laws;
mod networks;
mod once;
mod packet;
mod page;
mod question;
mod replies;
mod search;
mod table;
mod writer;
mod zone;
mod zone_function;
mod zone_page;

pub use answer::{answer_net_info, reply_net_info};
pub use entries::Entries;
pub use entry::Entry;
pub use laws::{
    answers_are_read, extended_replies_are_read, queries_are_read, questions_are_read,
    the_examples_of_net_info, the_examples_of_replies, the_examples_of_replies_heard,
    the_examples_of_zone_pages,
};
pub use networks::Networks;
pub use packet::{Function, NetInfo, Packet};
pub use page::{MAX_PAGE, Page, zone_list_page};
pub use question::write_get_net_info;
pub use replies::answer_query;
pub use table::ZoneTable;
pub use writer::{MAX_NETWORKS, write_extended, write_query};
pub use zone_function::ZoneFunction;
pub use zone_page::page_for;
