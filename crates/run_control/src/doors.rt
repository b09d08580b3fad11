//! The doors of a run: who may come in, and which places are taken.

use crate::request::Request;
use std::alloc::{AllocError, Global};
use std::marker::Model;

/// How a place stands.
#[derive(Clone, Copy, Debug, PartialEq, Eq)]
pub enum PlaceState {
    /// The place has no viewer.
    Free,
    /// The place has a viewer.
    Taken,
    /// The place has a viewer, which `end` has asked to leave.
    Leaving,
}

/// Whether viewers are let in.
#[derive(Clone, Copy, Debug, PartialEq, Eq)]
pub enum Entry {
    /// Viewers are let in wherever a place is free.
    Open,
    /// Nobody is let in, until an operator lets viewers in again.
    Drained,
    /// Nobody is let in any more: the run ends, and every viewer is asked to leave.
    Closed,
}

/// What became of a request.
#[derive(Clone, Copy, Debug, PartialEq, Eq)]
pub enum Outcome {
    /// What was asked for holds now.
    Done,
    /// There is no such place.
    NoPlace,
    /// The place has no viewer.
    Nobody,
    /// Nobody is let in, until an operator lets viewers in again.
    Drained,
    /// The run ends already: nobody is let in again.
    Ending,
}

/// The doors of a run. Places are counted from 1.
#[derive(Drop)]
pub struct Doors {
    entry: Entry,
    places: Vec<PlaceState>,
}

impl Model for Doors {
    ghost use Rattle.run_control.specs.Doors.{Standing};

    ghost Value = { Standing };

    ghost view = { λ d. record { entry = d.entry; places = d.places.items } };
}

impl Doors {
    ghost use Rattle.std.specs.Prelude.{◌≡◌, IfOk, length, replicate, count_by};
    ghost use Rattle.run_control.specs.Doors.{after_coming, after_leaving, after_request, free_places, is_asked, is_let_in, outcome_if_open, outcome_of, outcome_unless_closed, place_at, with_place};

    /// Open doors with this many places, all of them free. It fails where memory for the places is refused.
    pub fn new(alloc: Global, places: usize) -> Result<Doors, AllocError>
        ensures { IfOk result (λ doors.
            doors ≡ record { entry = Entry.Open; places = replicate places PlaceState.Free }) }
    {
        Ok(Doors {
            entry: Entry::Open,
            places: vec![in alloc; PlaceState::Free; places]?,
        })
    }

    /// Whether viewers are let in.
    pub fn entry(&self) -> Entry
        ensures { result ≡ self.now.entry }
    {
        self.entry
    }

    /// How many places there are.
    pub fn places(&self) -> usize
        ensures { result ≡ length self.now.places }
    {
        self.places.len()
    }

    /// How the place of this number stands, if there is one.
    pub fn place(&self, number: u64) -> Option<PlaceState>
        ensures { result ≡ place_at self.now number }
    {
        if number == 0 {
            return None;
        }
        self.places.get((number - 1) as usize).copied()
    }

    /// How many places have no viewer.
    pub fn free(&self) -> usize
        ensures { result ≡ free_places self.now }
    {
        self.places
            .iter()
            .filter(|place| matches!(place, PlaceState::Free))
            .count()
    }

    /// Whether a place has a viewer that is asked to leave: by `end`, or since the run ends.
    pub fn is_asked(&self, number: u64) -> bool
        ensures { result ≡ is_asked self.now number }
    {
        match self.place(number) {
            Some(PlaceState::Leaving) => true,
            Some(PlaceState::Taken) => matches!(self.entry, Entry::Closed),
            Some(PlaceState::Free) | None => false,
        }
    }

    /// Sets how the place of this number stands. Where there is no such place nothing changes.
    fn set(&mut self, number: u64, place: PlaceState)
        ensures { self.new ≡ with_place self.old number place }
    {
        if number == 0 {
            return;
        }
        let index = (number - 1) as usize;
        if index < self.places.len() {
            self.places[index] = place;
        }
    }

    /// A viewer comes to this place. It takes the place where that is free and viewers are let in. The call answers
    /// whether it does.
    pub fn enter(&mut self, number: u64) -> bool
        ensures after { self.new ≡ after_coming self.old number }
        ensures value { result ≡ is_let_in self.old number }
    {
        match (self.entry, self.place(number)) {
            (Entry::Open, Some(PlaceState::Free)) => {
                self.set(number, PlaceState::Taken);
                true
            }
            _ => false,
        }
    }

    /// The viewer of this place has left.
    pub fn leave(&mut self, number: u64)
        ensures { self.new ≡ after_leaving self.old number }
    {
        self.set(number, PlaceState::Free);
    }

    /// Asks the viewer of this place to leave.
    fn end(&mut self, number: u64) -> Outcome
        ensures after { self.new ≡ after_request self.old (Request.End number) }
        ensures outcome { result ≡ outcome_of self.old (Request.End number) }
    {
        match self.place(number) {
            None => Outcome::NoPlace,
            Some(PlaceState::Free) => Outcome::Nobody,
            Some(PlaceState::Leaving) => Outcome::Done,
            Some(PlaceState::Taken) => {
                self.set(number, PlaceState::Leaving);
                Outcome::Done
            }
        }
    }

    /// The answer to a request that isn't done any more once the run ends.
    fn outcome_unless_closed(&self) -> Outcome
        ensures { result ≡ outcome_unless_closed self.now.entry }
    {
        match self.entry {
            Entry::Open | Entry::Drained => Outcome::Done,
            Entry::Closed => Outcome::Ending,
        }
    }

    /// What is answered to a request for one more viewer.
    fn outcome_if_open(&self) -> Outcome
        ensures { result ≡ outcome_if_open self.now.entry }
    {
        match self.entry {
            Entry::Open => Outcome::Done,
            Entry::Drained => Outcome::Drained,
            Entry::Closed => Outcome::Ending,
        }
    }

    /// Lets viewers in again, if the run doesn't end.
    fn reopen(&mut self) -> Outcome
        ensures after { self.new ≡ after_request self.old Request.Undrain }
        ensures outcome { result ≡ outcome_of self.old Request.Undrain }
    {
        let outcome = self.outcome_unless_closed();
        if matches!(outcome, Outcome::Done) {
            self.entry = Entry::Open;
        }
        outcome
    }

    /// Does what is asked, and answers what became of it. `State` changes nothing. Nor do `Next` and `Call`, since
    /// doors know nothing of hosts, and a viewer that is called comes like any other: their answers say whether the
    /// run ends and, to a call, whether viewers are let in.
    pub fn ask(&mut self, request: Request) -> Outcome
        ensures after { self.new ≡ after_request self.old request }
        ensures outcome { result ≡ outcome_of self.old request }
    {
        match request {
            Request::State(_) => Outcome::Done,
            Request::Drain => {
                if matches!(self.entry, Entry::Open) {
                    self.entry = Entry::Drained;
                }
                Outcome::Done
            }
            Request::Undrain => self.reopen(),
            Request::End(number) => self.end(number),
            Request::Next => self.outcome_unless_closed(),
            Request::Call(_, _) => self.outcome_if_open(),
            Request::Stop => {
                self.entry = Entry::Closed;
                Outcome::Done
            }
        }
    }
}
