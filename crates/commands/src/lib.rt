//! The commands of `atalk`, from readers to writers: an audit, a trace, a play, what is made of a
//! tables file, shown of an image or drawn, and what is joined of several images. Each reads its
//! input to the end, or an image up to its first fault, does its work, and then writes; what it
//! worked out is returned.
#![tactic(auto)]

mod answers;
mod auditing;
mod handing;
mod image_input;
mod joining;
mod making;
mod plays;
mod reading;
mod refused;
mod script_input;
mod showing;
mod text_input;
mod tracing;

pub use answers::{Answer, answer_of, into_answer};
pub use auditing::{Judged, audit_file};
pub use image_input::read_image;
pub use joining::{join_image, judge_image};
pub use making::make_bytes;
pub use plays::{capture_play, play_bytes};
pub use reading::READS;
pub use refused::{AtFault, Origin, Refused};
pub use script_input::read_steps;
pub use showing::{draw_image, show_image};
pub use text_input::{append, read_text};
pub use tracing::{capture_run, run_frozen};
