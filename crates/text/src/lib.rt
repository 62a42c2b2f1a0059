//! Text: numbers, addresses and bytes, read from words and written in digits; and a buffered
//! writer.
#![tactic(auto)]

mod addresses;
pub mod cut;
mod digits;
pub mod hex;
pub mod number;
mod output;

pub use addresses::address;
pub use digits::{put_address, put_decimal, put_hex};
pub use output::Output;
