//! How far a viewer is, while it is served.

/// What is told how far a viewer is. No clause says what it does with that.
pub trait Progress {
    /// Notes how many answers were begun for the viewer by now, and how many of the source's updates its last look
    /// found.
    fn count(&self, answers: u64, shown: u64);
}

/// A progress that tells nobody.
#[derive(Clone, Copy, Drop)]
pub struct NoProgress;

impl Progress for NoProgress {
    fn count(&self, _answers: u64, _shown: u64) {}
}
