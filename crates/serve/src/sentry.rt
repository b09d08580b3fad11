//! The sentry notes what happens: in the log, for systemd, and in the numbers for machines.

use crate::incident::{Incident, RunLog};
use crate::journal::Journal;
use crate::surroundings::Surroundings;
use notify::Notifier;
use roles::Role;
use run_reports::{CountedEvent, EventCounts, Notice, Ready, notice_text};
use run_traits::{Event, Log};
use settings::{Settings, places_of};
use std::alloc::{AllocError, Global};
use std::net::{Net, SocketAddr};
use std::sync::{Arc, Mutex, Wait};
use std::time::Clock;

/// How a run stands, and where systemd hears of it.
#[derive(Drop)]
struct Standing {
    counts: EventCounts,
    /// Where the host is, if one is joined and the system tells.
    host: Option<SocketAddr>,
    places: u64,
    /// Whether systemd was told that the run is ready.
    is_ready: bool,
    notifier: Option<Notifier>,
}

/// What is told what happens in a run, and notes it wherever it is needed.
#[derive(Clone, Drop)]
pub(crate) struct Sentry<R: Eprint + Clock + Wait + Drop> {
    rt: R,
    alloc: Global,
    journal: Journal<R>,
    standing: Arc<Mutex<Standing>, Global>,
}

/// What is counted of what happens at a door or at the host, if anything is.
fn happening_at(event: &Event<'_>) -> Option<CountedEvent> {
    match event {
        Event::Listening { .. } | Event::OpenToAll { .. } | Event::HostTried { .. } => None,
        Event::HostJoined { .. } => Some(CountedEvent::Joined),
        Event::HostOut { .. } => Some(CountedEvent::HostLeft),
        Event::ViewerIn { place_id, .. } => Some(CountedEvent::Came(place_id.role)),
        Event::ViewerOut { place_id, .. } => Some(CountedEvent::Left(place_id.role)),
        Event::PlacesTaken { role, .. }
        | Event::NoHost { role, .. }
        | Event::NoEntry { role, .. }
        | Event::NoHeader { role, .. }
        | Event::WrongPassword { role, .. } => { Some(CountedEvent::Refused(*role)) }
    }
}

/// What is counted of what happens in a run, if anything is.
fn happening_of(incident: &Incident<'_>) -> Option<CountedEvent> {
    match incident {
        Incident::Noted(event) => happening_at(event),
        Incident::MetricsListening(_) | Incident::HostsListening(_) => None,
        Incident::HostStopped(..)
        | Incident::HostSkipped(..)
        | Incident::RecordingSought
        | Incident::RecordingBad(_) => Some(CountedEvent::HostLeft),
        Incident::IndexUnused(..) | Incident::Recording(..) => None,
    }
}

impl Standing {
    /// How a run of so many places stands before anything has happened.
    fn new(places: u64, notifier: Option<Notifier>) -> Standing {
        Standing {
            counts: EventCounts::new(),
            host: None,
            places,
            is_ready: false,
            notifier,
        }
    }

    /// Tells systemd how the run stands. A notice for which memory is refused, or that systemd has no room for, is left
    /// out: the next one tells the same.
    fn notify(&mut self, alloc: Global) {
        let Some(notifier) = &self.notifier else {
            return;
        };
        let host = match self.host {
            Some(address) => format!(in alloc; "{address}"),
            None => String::from_str(alloc, "-"),
        };
        let Ok(host) = host else {
            return;
        };
        let is_news = self.counts.is_joined && !self.is_ready;
        let viewers = self.counts.viewers;
        let notice = Notice {
            ready: if is_news { Ready::Now } else { Ready::Unsaid },
            host: if self.counts.is_joined {
                Some(host.as_str())
            } else {
                None
            },
            viewers: viewers.full.saturating_add(viewers.view),
            places: self.places,
        };
        if let Ok(text) = notice_text(alloc, &notice) {
            let told = notifier.send(text.as_str());
            self.is_ready = self.is_ready || (is_news && told.is_ok());
        }
    }

    /// Notes that this has happened: counts it, and tells systemd, unless it is that a viewer was refused.
    fn note(&mut self, alloc: Global, incident: &Incident<'_>) {
        let Some(happening) = happening_of(incident) else {
            return;
        };
        self.counts.note(happening);
        if let Incident::Noted(Event::HostJoined { address, .. }) = incident {
            self.host = *address;
        }
        if !matches!(happening, CountedEvent::Refused(_)) {
            self.notify(alloc);
        }
    }
}

impl<R: Eprint + Clock + Wait + Net + Copy + Drop> Sentry<R> {
    /// A sentry for a run by these settings, in these surroundings. It fails where memory is refused for it.
    pub(crate) fn new(
        rt: R,
        alloc: Global,
        settings: &Settings,
        surroundings: &Surroundings,
    ) -> Result<Sentry<R>, AllocError> {
        let notifier = match &surroundings.notify {
            Some(text) => Notifier::new(&rt, text.as_str()).ok(),
            None => None,
        };
        let places = places_of(settings, Role::Full).saturating_add(places_of(
            settings,
            Role::View,
        ));
        let standing = Arc::new(alloc, Mutex::new(Standing::new(places, notifier)))?;
        Ok(Sentry {
            rt,
            alloc,
            journal: Journal::new(rt, alloc, settings.log, surroundings.is_journal)?,
            standing,
        })
    }
}

impl<R: Eprint + Clock + Wait + Drop> Sentry<R> {
    /// Standard error, with the log on it.
    pub(crate) fn journal(&self) -> &Journal<R> {
        &self.journal
    }

    /// What has happened until now.
    pub(crate) fn counts(&self) -> EventCounts {
        self.standing.lock(&self.rt).counts
    }
}

impl<R: Eprint + Clock + Wait + Drop> Log for Sentry<R> {
    fn note(&self, event: &Event<'_>) {
        self.note_incident(&Incident::Noted(event));
    }
}

impl<R: Eprint + Clock + Wait + Drop> RunLog for Sentry<R> {
    fn note_incident(&self, incident: &Incident<'_>) {
        self.journal.note(incident);
        self.standing.lock(&self.rt).note(self.alloc, incident);
    }
}
