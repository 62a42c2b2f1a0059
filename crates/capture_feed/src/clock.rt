//! The time of a capture, in ticks.

ghost use Rattle.std.specs.Prelude.{◌≡◌};
ghost use Rattle.capture_feed.specs.Clocks as spec;

/// The length of a tick, in microseconds.
const TICK: u64 = 200_000;

/// How far a time may be before the greatest one so far, in microseconds: one further back begins
/// the time anew.
const MAX_BACK: u64 = 10_000_000;

/// The most ticks that pass at once.
const MAX_TICKS: u64 = 400;

/// A clock that the times of a capture's blocks drive: it shows the greatest one so far.
#[derive(Clone, Copy, Debug, PartialEq, Eq)]
pub struct Clock {
    /// What it shows, in microseconds; none before the first time.
    pub shows: Option<u64>,
}

impl Clock {
    /// A clock before the first time.
    pub fn new() -> Clock
        ensures { result ≡ spec.unset }
    {
        Clock { shows: None }
    }

    /// The time, in microseconds, and how many ticks pass by it: none at the first time, and at most
    /// 400. Where it is more than ten seconds before what the clock shows, the clock is set to it.
    pub fn pass(&mut self, now: u64) -> u16
        ensures ticks { result ≡ spec.ticks_by self.old now }
        ensures shows { self.new ≡ spec.after self.old now }
    {
        let last = match self.shows {
            Some(last) if last.saturating_sub(now) <= MAX_BACK => last,
            _ => now,
        };
        self.shows = Some(last.max(now));
        (now / TICK).saturating_sub(last / TICK).min(MAX_TICKS) as u16
    }
}
