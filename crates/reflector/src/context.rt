//! What the threads of a run share.

use crate::given::RunShared;
use raster::Size;
use rfb_wire::Joined;
use run_traits::{Alarm, Stop};
use std::alloc::Global;
use std::sync::{Arc, Wait};
use viewer_session::AnswerForm;
use vnc_auth::Password;

/// The handle of each thread, the screen that viewers are told and the form in which all of them are answered, the size
/// of the first host's screen, what is shared with those who run it, and the flag that ends all threads.
#[derive(Drop)]
pub(crate) struct RunContext<R: Wait + Drop, B: Alarm + Drop, W: Alarm + Drop> {
    pub(crate) rt: R,
    pub(crate) alloc: Global,
    /// The password that hosts may ask for, if one is known.
    pub(crate) password: Option<Password>,
    pub(crate) form: AnswerForm,
    /// What viewers are told: the size of the room, and the name of the first host.
    pub(crate) screen: Joined,
    pub(crate) host: Size,
    pub(crate) shared: RunShared<B, W>,
    /// It rouses everyone as it is set.
    pub(crate) stop: Arc<Stop<Arc<B, Global>>, Global>,
}
