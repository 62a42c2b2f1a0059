//! Shows the progress of a long play to a person at a terminal.

ghost use Rattle.std.specs.Prelude.{◌≡◌, ◌&&◌};
ghost use Rattle.std.specs.List.{list_any};
ghost use Rattle.audit.specs.Rules.{is_for};
ghost use Rattle.rtmp.specs.States.{is_usable};

use playing::Progress;
use rtmp::Routes;
use table_image::{Cable, Image, Router, Row};
use world::World;

/// Plays with more ticks than this are long.
const LONG: u32 = 1_000;

/// The number of ticks from one line to the next.
const EVERY: u32 = 256;

/// Prints the progress of a play on standard error, if the play is long and standard error is a
/// terminal.
#[derive(Drop)]
pub struct Watching<'a, R> {
    rt: &'a R,
    watched: bool,
    // The number of ticks so far.
    passed: u32,
    // Whether a line has to be cleared.
    shown: bool,
}

impl<'a, R: Eprint> Watching<'a, R> {
    /// An observer of a play, which has printed nothing.
    pub fn new(rt: &'a R, watched: bool) -> Watching<'a, R> {
        Watching {
            rt,
            watched,
            passed: 0,
            shown: false,
        }
    }

    /// Clears the line.
    pub fn end(&mut self) {
        if self.shown {
            let _ = eprint!(self.rt; "\r\x1B[K");
            self.shown = false;
        }
    }

    /// Prints the progress of the play.
    fn show(&mut self, world: &World<Routes>) {
        let ticks = world.plan().ticks();
        let missing = match world.freeze() {
            Ok(image) => missing_in(&image),
            // Out of memory: the play will report it.
            Err(_) => return,
        };
        let tick = self.passed;
        let _ = eprint!(self.rt; "\r\x1B[Ktick {tick} of {ticks}, {missing} cables without routes");
        self.shown = true;
    }
}

impl<R: Eprint> Progress for Watching<'_, R> {
    fn passed(&mut self, world: &World<Routes>) {
        let ticks = world.plan().ticks();
        self.passed = self.passed.saturating_add(1);
        if self.passed >= ticks {
            // The lines of the play follow, perhaps on the same terminal.
            self.end();
        } else if self.watched && ticks > LONG && self.passed % EVERY == 0 {
            self.show(world);
        }
    }
}

/// Whether the row is a usable one for the cable.
fn is_route(row: &Row, cable: &Cable) -> bool
    ensures { result ≡ (is_for row.now cable.now && is_usable row.now.state) }
{
    row.start == cable.start && row.end == cable.end && row.state.is_usable()
}

/// Whether the router has a usable row for the cable.
fn has_row(router: &Router, cable: &Cable) -> bool
    ensures { result
        ≡ list_any (λ row. is_for row cable.now && is_usable row.state) router.now.rows }
{
    router.rows.iter().any(|row| is_route(row, cable))
}

/// The number of cables for which some router has no usable row.
fn missing_in(image: &Image) -> usize {
    let mut missing = 0usize;
    for cable in image.cables() {
        if image.routers().iter().any(|router| !has_row(router, cable)) {
            missing = missing.saturating_add(1);
        }
    }
    missing
}
