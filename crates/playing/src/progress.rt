//! Observers of a play's progress.

use rtmp::Routes;
use world::World;

/// Observes a play's progress. It cannot affect the result.
pub trait Progress {
    /// A tick has finished.
    fn passed(&mut self, world: &World<Routes>);
}

/// An observer that does nothing.
#[derive(Clone, Copy, Debug)]
pub struct Silent;

impl Progress for Silent {
    fn passed(&mut self, _world: &World<Routes>) {}
}
