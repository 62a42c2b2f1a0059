//! Routing tables: a router's routes to the ranges of an internet, and the packets of routing data.
#![tactic(auto)]

mod data;
mod hearing;
mod index;
mod indexed;
mod laws;
mod plain;
mod removal;
mod request;
mod row;
mod rows;
mod state;
mod table;
mod tuple;
mod update;
mod writer;
mod written;

pub use data::{AllTuples, DataPacket, Tuples};
pub use hearing::hear_packet;
pub use indexed::{IndexedTable, Routes};
pub use laws::{data_is_read_back, request_is_read_back};
pub use plain::PlainTable;
pub use request::{Horizon, Request};
pub use row::Row;
pub use state::State;
pub use table::{Change, MAX_DISTANCE, RouteTable};
pub use tuple::{AnyTuple, Nonextended, Tuple};
pub use writer::{MAX_ROWS_IN_PACKET, UNREACHABLE, write_data, write_response};
