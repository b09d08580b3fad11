//! What shows that an operator has asked a run to stop, or for its next host.

use run_control::Request;

/// What shows that a run was asked to stop: only a request to stop gives one.
#[derive(Clone, Copy, Drop)]
pub struct StopOrder {
    only_here: (),
}

impl StopOrder {
    ghost use Rattle.std.specs.Prelude.{◌≡◌, is_some};
    ghost use Rattle.serve.specs.Stops.{asks_to_stop};

    /// What the request shows, if it asks to stop.
    pub(crate) fn of(request: Request) -> Option<StopOrder>
        ensures { is_some result ≡ asks_to_stop request }
    {
        match request {
            Request::Stop => Some(StopOrder { only_here: () }),
            _ => None,
        }
    }
}

/// What shows that a run was asked for its next host: only a request for it gives one.
#[derive(Clone, Copy, Drop)]
pub(crate) struct SkipOrder {
    only_here: (),
}

impl SkipOrder {
    ghost use Rattle.std.specs.Prelude.{◌≡◌, is_some};
    ghost use Rattle.serve.specs.Stops.{asks_for_next};

    /// What the request shows, if it asks for the next host.
    pub(crate) fn of(request: Request) -> Option<SkipOrder>
        ensures { is_some result ≡ asks_for_next request }
    {
        match request {
            Request::Next => Some(SkipOrder { only_here: () }),
            _ => None,
        }
    }
}
