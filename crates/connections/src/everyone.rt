//! Who is told of an update.

use crate::seat::Seat;
use crate::writer_seat::WriterSeat;
use run_traits::{Alarm, HostCount};
use std::alloc::Global;
use std::sync::Arc;

/// An alarm that rings the host's writer, and then each place, so that the host can go on working while the viewers are
/// told. It is rung once for each update that is put, and counts these updates.
#[derive(Drop)]
pub struct Everyone {
    /// What is counted of the hosts.
    pub count: Arc<HostCount, Global>,
    /// Where the host's writer rests.
    pub writer: Arc<WriterSeat, Global>,
    /// Where the places wait.
    pub seats: Vec<Arc<Seat, Global>>,
}

impl Alarm for Everyone {
    fn ring(&self) {
        self.count.note_put();
        self.writer.ring();
        for seat in &self.seats {
            seat.ring();
        }
    }

    fn rouse(&self) {
        self.writer.rouse();
        for seat in &self.seats {
            seat.rouse();
        }
    }
}
