//! What a run is given.

use crate::input_counts::InputCounts;
use host_turns::{HostEnds, Hosts};
use link::Link;
use rfb_wire::Joined;
use roles::Role;
use run_traits::{Alarm, Door};
use std::alloc::Global;
use std::sync::Arc;
use viewer_session::AnswerForm;

/// The hosts of a run: the first one, which was joined over the end that is read, and those that follow it.
#[derive(Drop)]
pub struct RunHosts<L: Link, H: Hosts<L>> {
    /// The two ends of the first host's connection.
    pub first: HostEnds<L>,
    /// The first host's screen, as it was joined.
    pub joined: Joined,
    /// Where further hosts come from.
    pub further: H,
}

/// The places of a run.
#[derive(Drop)]
pub struct RunPlaces<D: Door> {
    /// The door of each place, with the role in which the place serves its viewers.
    pub doors: Vec<(Role, D)>,
    /// The form in which all viewers are answered.
    pub form: AnswerForm,
}

/// What the threads of a run share with those who run it.
#[derive(Drop)]
pub struct RunShared<B: Alarm + Drop, W: Alarm + Drop> {
    /// The alarm of all that wait for news, the hosts' writer included. It is rung after each put.
    pub everyone: Arc<B, Global>,
    /// The alarm of the hosts' writer. It is rung after each input that was sent.
    pub writer: Arc<W, Global>,
    /// Where others read how much input waits, and how much was dropped.
    pub input: Arc<InputCounts, Global>,
}
