//! A run's numbers, from where they are counted.

ghost use Rattle.std.specs.Prelude.{◌≡◌, ◌≤◌, IfOk};
ghost use Rattle.serve.specs.Numbers.{AreCounters, IsLag, places_by_role, recorded_as, tenths_of, updates_behind, viewers_by_role, viewers_of};

use connections::{RunCard, ViewerCard};
use recorder::{Recording, Standing};
use reflector::InputCounts;
use roles::Role;
use run_reports::{ByRole, Counters, EventCounts, Lag, RecordingCounts};
use settings::{Settings, places_of};
use std::alloc::{AllocError, Global};
use std::sync::{Arc, Wait};

/// How many places there are for each role.
pub(crate) fn places_by_role(settings: &Settings) -> ByRole
    ensures { result ≡ places_by_role settings.now }
{
    ByRole {
        full: places_of(settings, Role::Full),
        view: places_of(settings, Role::View),
    }
}

/// How many inputs of viewers wait for the host now, and how many were dropped on their way to a host.
#[derive(Clone, Copy)]
pub(crate) struct Inputs {
    waiting: u64,
    dropped: u64,
}

/// The inputs that are counted here, as they are now. No clause says that these numbers are up to date.
pub(crate) fn inputs_of<R: Wait>(rt: &R, counts: &InputCounts) -> Inputs
    ensures { result.waiting ≤ 256 }
{
    Inputs {
        waiting: counts.waiting(rt) as u64,
        dropped: counts.dropped(),
    }
}

/// What is counted of a recording that stands so, for machines.
fn recorded_as(standing: Standing, bytes: u64) -> RecordingCounts
    ensures { result ≡ recorded_as standing bytes }
{
    RecordingCounts {
        is_on: matches!(standing, Standing::Begun(_)),
        start_seconds: match standing {
            Standing::Begun(began) => began.epoch_seconds,
            _ => 0,
        },
        has_failed: matches!(standing, Standing::Failed(_)),
        bytes,
    }
}

/// What is counted of the recording, as it stands now: of a run that isn't recorded, nothing.
pub(crate) fn recorded_of<R: Wait>(
    rt: &R,
    recording: &Option<Arc<Recording, Global>>,
) -> RecordingCounts {
    match recording {
        Some(recording) => recorded_as(recording.standing(rt), recording.bytes()),
        None => RecordingCounts {
            is_on: false,
            start_seconds: 0,
            has_failed: false,
            bytes: 0,
        },
    }
}

/// Of these numbers, which are in order, the one that so many tenths of them don't exceed; 0 where there are none.
fn tenths(behind: &[u64], tenths: usize) -> u64
    ensures { tenths ≤ 10 → result ≡ tenths_of behind.now tenths }
{
    let rank = behind.len().saturating_mul(tenths).div_ceil(10);
    match behind.get(rank.saturating_sub(1)) {
        Some(number) => *number,
        None => 0,
    }
}

/// By how many updates viewers are behind. It fails where memory is refused for them.
fn lag_of(alloc: Global, run_card: &RunCard) -> Result<Lag, AllocError>
    ensures { IfOk result (λ lag. IsLag (updates_behind run_card.entry.now) lag) }
{
    let mut behind = Vec::with_capacity(alloc, run_card.viewers.len())?;
    for viewer in &run_card.viewers {
        behind.push(run_card.updates.saturating_sub(viewer.shown))?;
    }
    behind.sort_unstable();
    let behind = behind.as_slice();
    Ok(Lag {
        half: tenths(behind, 5),
        nine_tenths: tenths(behind, 9),
        all: tenths(behind, 10),
    })
}

/// How many of these viewers are of a role.
fn viewers_of(viewers: &[ViewerCard], role: Role) -> u64
    ensures { result ≡ viewers_of role viewers.now }
{
    viewers
        .iter()
        .filter(|viewer| viewer.comer.role == role)
        .count() as u64
}

/// How many of those that have a place are of each role.
fn viewers_by_role(viewers: &[ViewerCard]) -> ByRole
    ensures { result ≡ viewers_by_role viewers.now }
{
    ByRole {
        full: viewers_of(viewers, Role::Full),
        view: viewers_of(viewers, Role::View),
    }
}

/// The numbers of a run that stands so, in which that has happened, with these places, and with these counts of its
/// viewers' input and of its recording. It fails where memory is refused for them.
pub(crate) fn counters_of(
    alloc: Global,
    run_card: &RunCard,
    counts: &EventCounts,
    places: ByRole,
    inputs: Inputs,
    recorded: RecordingCounts,
) -> Result<Counters, AllocError>
    ensures { IfOk result (λ counters.
        AreCounters run_card.entry.now counts.now places inputs recorded counters) }
{
    Ok(Counters {
        is_joined: run_card.host.is_some(),
        silent_seconds: run_card.now.saturating_sub(run_card.heard) / 1_000,
        joins: counts.joins,
        places,
        viewers: viewers_by_role(run_card.viewers.as_slice()),
        came: counts.came,
        refused: counts.refused,
        updates: run_card.updates,
        answers: run_card.totals.updates,
        bytes: run_card.totals.bytes,
        waiting: inputs.waiting,
        dropped: inputs.dropped,
        recorded,
        lag: lag_of(alloc, run_card)?,
    })
}
