//! A step of a script.

use events::Event;

/// A step of a script: the content of one line.
#[derive(Debug, Drop)]
pub enum Step {
    /// The event to carry out.
    Event(Event),
    /// The greatest number of frames to take, each time the lowest pending pair of a frame and a
    /// station.
    Drain(u32),
}
