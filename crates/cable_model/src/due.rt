//! Pending pairs of a frame and a seat.

/// A frame that is pending for the station of a seat. Frame and seat are named by their indices, so
/// that the pair stays small.
#[derive(Clone, Copy, Debug)]
pub struct Due {
    /// The stamp of the frame.
    pub stamp: u32,
    /// The station of the seat.
    pub station: u16,
    /// The index of the frame's entry in the transcript.
    pub put: u32,
    /// The index of the seat.
    pub seat: usize,
}
