//! Case files: commands in the words of the protocol, and the lines of each command's answer.
//!
//! A case is a run of lines between empty ones. `# ..` is a remark, `> ..` is the next line of the
//! answer of the command above it, and any other line is a command.
#![tactic(auto)]

mod case_file;
mod hex;
mod program;
mod stop;
mod text;
mod words;

pub use case_file::{Bench, Counts, compare};
pub use program::run;
pub use stop::{Answer, Stop};
pub use text::{put_hex, put_hw, put_line, put_text, yes_or_no};
pub use words::Words;
