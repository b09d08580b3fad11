//! The host that is read, as an operator may end it.
//!
//! What ends it stands here alone among what an operator reaches. It ends only by what shows that an operator has
//! asked for it: a `C`, that the run stops, or an `S`, that the next host is to follow. Nothing here can make either.

ghost use Rattle.std.specs.Prelude.{◌≡◌, None, Some, if◌then◌else◌, is_some};

use crate::turns::Successor;
use player::Player;
use std::alloc::Global;
use std::marker::PhantomData;
use std::net::{Shutdown, TcpStream};
use std::sync::{Arc, Wait};

/// What ends a host, for whoever reads it, from another thread.
#[derive(Drop)]
pub(crate) enum Grip {
    /// Its connection.
    Stream(TcpStream),
    /// The player of a recording.
    Player(Arc<Player, Global>),
}

impl Grip {
    fn end<R: Wait>(&self, rt: &R) {
        match self {
            Grip::Stream(stream) => {
                let _ = stream.shutdown(Shutdown::Read);
            }
            Grip::Player(player) => player.leave(rt),
        }
    }
}

/// The host that is read.
#[derive(Drop)]
pub(crate) struct HeldHost<C: Copy + Drop, S: Copy + Drop> {
    grip: Grip,
    /// What shows that a host has its turn after this one, if one has.
    successor: Option<Successor>,
    /// What it was left for the next host by.
    skipped: Option<S>,
    by: PhantomData<C>,
}

impl<C: Copy + Drop, S: Copy + Drop> HeldHost<C, S> {
    /// The host that is read, and what ends it.
    pub(crate) fn new(grip: Grip, successor: Option<Successor>) -> HeldHost<C, S>
        ensures { (result.successor ≡ successor) × (result.skipped ≡ None) }
    {
        HeldHost {
            grip,
            successor,
            skipped: None,
            by: PhantomData,
        }
    }

    /// Whether a host has its turn after this one.
    pub(crate) fn has_successor(&self) -> bool
        ensures { result ≡ is_some self.now.successor }
    {
        self.successor.is_some()
    }

    /// It ends now, for whoever reads it, since the run stops.
    pub(crate) fn stop<R: Wait>(&self, rt: &R, _cut: C) {
        self.grip.end(rt);
    }

    /// It ends now, for whoever reads it, if a host has its turn after it.
    pub(crate) fn skip<R: Wait>(&mut self, rt: &R, skip: S)
        ensures { self.new.skipped
            ≡ (if is_some self.old.successor then Some skip else self.old.skipped) }
    {
        if self.successor.is_some() {
            self.grip.end(rt);
            self.skipped = Some(skip);
        }
    }

    /// What it was left for the next host by, if it was.
    pub(crate) fn skipped(&self) -> Option<S>
        ensures { result ≡ self.now.skipped }
    {
        self.skipped
    }
}
