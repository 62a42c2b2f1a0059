//! Who watches a station run.

/// Who watches a station run: what it does changes nothing of the run.
pub trait Watch<C> {
    /// A tick has passed, at a time in microseconds. The station is as it is after it; so many ticks
    /// have passed, with this one; and so many events were dropped, since there was no memory for them.
    fn ticked(&mut self, station: &C, time: u64, ticks: u64, dropped: u64);

    /// A frame came on the cable of a port, at a time, with these bytes. The station is as it is after it.
    /// Of one for which there was no memory nothing is told.
    fn heard(&mut self, station: &C, time: u64, bytes: &[u8]);
}
