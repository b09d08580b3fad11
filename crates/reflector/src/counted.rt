//! Tells the counters of a place how far its viewer is.

use run_traits::PlaceCount;
use viewer_server::Progress;

/// Notes how far a viewer is in the counters of its place.
#[derive(Drop)]
pub(crate) struct Counted<'a> {
    pub(crate) count: &'a PlaceCount,
}

impl Progress for Counted<'_> {
    fn count(&self, answers: u64, shown: u64) {
        self.count.note_answer(answers, shown);
    }
}
