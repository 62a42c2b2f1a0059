//! A play: from the plan of an internet file to the world after its last tick, the image of the tables
//! there and the verdict on it; its lines, and its capture.
#![tactic(auto)]

mod capturing;
mod playing;
mod printing;
mod progress;
mod reading;
mod received;
mod refused;
mod ticking;

pub use capturing::capture_play;
pub use playing::{Played, play};
pub use printing::lines_of;
pub use progress::{Progress, Silent};
pub use reading::read_plan;
pub use received::put_received;
pub use refused::put_refused;
