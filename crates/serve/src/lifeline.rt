//! What an operator ends a run by, or the turn of a host.
//!
//! No clause knows what a lock keeps. So a lifeline has a type parameter for what shows that it was cut, and one for
//! what shows that a host was left for the next one: whoever asks is handed a value of such a type only where one was
//! handed in, since nothing here can make one.

use crate::held_host::HeldHost;
use crate::rested::CallsOff;
use std::alloc::Global;
use std::sync::{Arc, Condvar, Mutex, Wait};
use std::time::{Clock, Duration};

#[derive(Drop)]
struct Line<C: Copy + Drop, S: Copy + Drop> {
    // The host that is read.
    present: Option<HeldHost<C, S>>,
    // How many hosts were held before it.
    left: u64,
    // What it was cut with.
    cut: Option<C>,
    // The run has ended, but for its exit status.
    is_over: bool,
}

/// Why the host isn't left for the next one.
#[derive(Clone, Copy, Debug, PartialEq, Eq)]
pub(crate) enum Stays {
    /// No host is read.
    NoHost,
    /// No host has its turn after it.
    NoOther,
}

/// The connection to the host that is read, of which the thread that reads it and the one that hears an operator each
/// have an end.
#[derive(Drop)]
pub(crate) struct Lifeline<C: Copy + Drop, S: Copy + Drop> {
    line: Mutex<Line<C, S>>,
    ended: Condvar,
}

impl<C: Copy + Drop, S: Copy + Drop> Lifeline<C, S> {
    /// A lifeline that holds no host yet.
    pub(crate) fn new() -> Lifeline<C, S> {
        Lifeline {
            line: Mutex::new(Line {
                present: None,
                left: 0,
                cut: None,
                is_over: false,
            }),
            ended: Condvar::new(),
        }
    }

    /// This host is read from now on. After a cut it ends at once.
    pub(crate) fn hold<R: Wait>(&self, rt: &R, host: HeldHost<C, S>) {
        let mut line = self.line.lock(rt);
        if let Some(cut) = line.cut {
            host.stop(rt, cut);
        }
        line.present = Some(host);
    }

    /// The host that was read has ended. It answers what it was left for the next one by, if it was.
    pub(crate) fn let_go<R: Wait>(&self, rt: &R) -> Option<S> {
        let mut line = self.line.lock(rt);
        let host = line.present.take()?;
        line.left = line.left.saturating_add(1);
        host.skipped()
    }

    /// Whether a host is read.
    pub(crate) fn holds<R: Wait>(&self, rt: &R) -> bool {
        self.line.lock(rt).present.is_some()
    }

    /// The host that is read ends now, for whoever reads it, and no other is read.
    pub(crate) fn cut<R: Wait>(&self, rt: &R, cut: C) {
        let mut line = self.line.lock(rt);
        line.cut = Some(cut);
        if let Some(host) = &line.present {
            host.stop(rt, cut);
        }
    }

    /// The number of the host that is read, if another has its turn after it. Hosts are numbered by how many were held
    /// before them.
    pub(crate) fn number<R: Wait>(&self, rt: &R) -> Result<u64, Stays> {
        let line = self.line.lock(rt);
        match &line.present {
            Some(host) if host.has_successor() => Ok(line.left),
            Some(_) => Err(Stays::NoOther),
            None => Err(Stays::NoHost),
        }
    }

    /// The host of this number ends now, for whoever reads it, and the next has its turn. If it has ended by itself,
    /// nothing changes.
    pub(crate) fn skip<R: Wait>(&self, rt: &R, number: u64, skip: S) {
        let mut guard = self.line.lock(rt);
        let line = &mut *guard;
        if line.left != number {
            return;
        }
        if let Some(host) = &mut line.present {
            host.skip(rt, skip);
        }
    }

    /// What it was cut with, if it was cut.
    pub(crate) fn is_cut<R: Wait>(&self, rt: &R) -> Option<C> {
        self.line.lock(rt).cut
    }

    /// The run has ended, but for its exit status.
    pub(crate) fn end<R: Wait>(&self, rt: &R) {
        self.line.lock(rt).is_over = true;
        self.ended.notify_all();
    }

    /// Waits until the run has ended, but no longer than this.
    pub(crate) fn await_end<R: Wait + Clock>(&self, rt: &R, patience: Duration) {
        let line = self.line.lock(rt);
        let (line, _) = self
            .ended
            .wait_timeout_while(rt, line, patience, |line| !line.is_over);
        drop(line);
    }
}

/// A lifeline that calls a pause off once it is cut.
#[derive(Drop)]
pub(crate) struct Recall<'a, R: Wait, C: Copy + Drop, S: Copy + Drop> {
    pub(crate) rt: &'a R,
    pub(crate) lifeline: &'a Arc<Lifeline<C, S>, Global>,
}

impl<R: Wait, C: Copy + Drop, S: Copy + Drop> CallsOff for Recall<'_, R, C, S> {
    type Order = C;

    fn order(&self) -> Option<C> {
        self.lifeline.is_cut(self.rt)
    }
}
