//! The stages of a run of hosts: a host is joined, no host is there, the next one has come, or the run is over. A stage
//! owns all that a run could do harm with, and its steps take no handle.

ghost use Rattle.std.specs.Prelude.{◌≡◌, ◌<◌, true, None, Err, [], ◌∷◌, ◌++◌, length, map, vec_capacity, vec_len, IfErr, IfOk};
ghost use Rattle.fault.specs.declared.kinds.Fault.{Fault};
ghost use Rattle.raster.specs.Screen.{opening};
ghost use Rattle.host_decoder.specs.Decoder.{Decodes, IsFor, host_message};
ghost use Rattle.link.specs.Links.{LinkState};
ghost use Rattle.host_reader.specs.Sizes.{HasSize};
ghost use Rattle.host_turns.specs.Moment.{IsBegun};
ghost use Rattle.host_turns.specs.Running.{HasRun, IsComing, IsMet, IsMissed, IsOver, IsRead, came_over, goes_on};

use crate::ending::{Ending, goes_on};
use crate::handover::{Handover, SealedEnd};
use crate::host::{RunScreen, meet, read};
use crate::supply::{HostEnds, Hosts};
use fault::Fault;
use host_decoder::HostScreen;
use host_reader::ReadsOn;
use link::{JoinsOn, Link};
use reflect_core::Puts;
use run_traits::Alarm;
use std::marker::PhantomData;
use std::snapshot::Snapshot;

/// How a run began. At run time it has no bytes: only clauses read it.
pub struct RunBeginning<L, H, P> {
    pub has_called: Snapshot<bool>,
    pub reader: Snapshot<L>,
    pub hosts: Snapshot<H>,
    pub publisher: Snapshot<P>,
}

impl<L, H, P> Drop for RunBeginning<L, H, P> {
    fn drop(self) {
        let RunBeginning {
            has_called: _,
            reader: _,
            hosts: _,
            publisher: _,
        } = self;
    }
}

impl<L, H, P> RunBeginning<L, H, P> {
    /// The beginning of a run whose first host is read over this link, and has called or not.
    pub fn of(has_called: bool, reader: &L, hosts: &H, publisher: &P) -> Self
        ensures has_called { result.has_called.value ≡ has_called }
        ensures reader { result.reader.value ≡ reader.now }
        ensures hosts { result.hosts.value ≡ hosts.now }
        ensures publisher { result.publisher.value ≡ publisher.now }
    {
        RunBeginning {
            has_called: Snapshot::of(&has_called),
            reader: Snapshot::of(reader),
            hosts: Snapshot::of(hosts),
            publisher: Snapshot::of(publisher),
        }
    }
}

/// What a run is lent: what all hosts have in common, where they are handed over, and how it all began. It stays the
/// same from stage to stage. A `T` is the key that takes a run apart.
struct Lent<'a, L: Link, H: Hosts<L>, P: Puts, W: Alarm + Drop, T: Drop> {
    run_screen: &'a RunScreen,
    handover: &'a Handover<L, W>,
    // No step can put another beginning in its place.
    first: &'a RunBeginning<L, H, P>,
    key: PhantomData<T>,
}

/// What a run owns at every stage, and hands on to the next: where further hosts come from, the links of those that
/// were read, and the publisher to which updates are put.
struct RunParts<L: Link, H: Hosts<L>, P: Puts> {
    hosts: H,
    links: Vec<L>,
    publisher: P,
}

/// The first host of a run, which was joined: the end of its connection that is read, whether it has called, what reads
/// it, and room for its link beside those of the hosts after it.
#[derive(Drop)]
pub struct FirstHost<L: Link> {
    pub reader: L,
    pub has_called: bool,
    pub screen: HostScreen,
    pub links: Vec<L>,
}

/// A run whose host is joined and isn't read yet. It has the end of the host's connection that is read, what reads it,
/// where further hosts come from, the links of the hosts before, and the publisher to which updates are put.
///
/// Only a run's own steps use these while the run has them. No step takes a handle, so each is proved to end where the
/// calls that it makes end, and `lawful` holds at its end. A `T` is the key that takes a run apart: whoever is given a
/// run can't make one.
pub struct JoinedRun<'a, L: Link, H: Hosts<L>, P: Puts, W: Alarm + Drop, T: Drop> {
    lent: Lent<'a, L, H, P, W, T>,
    parts: RunParts<L, H, P>,
    has_called: bool,
    reader: L,
    screen: HostScreen,
    ghost room: { vec_len parts.links < vec_capacity parts.links },
    ghost sized: { (screen.decoder.width ≡ lent.run_screen.now.width)
        × (screen.decoder.height ≡ lent.run_screen.now.height) },
    ghost paired: { (screen.painter.width ≡ screen.decoder.width)
        × (screen.painter.height ≡ screen.decoder.height) },
    ghost size: { HasSize P.width P.height parts.publisher lent.run_screen.now.width
        lent.run_screen.now.height },
    ghost again: { H.again parts.hosts ≡ H.again lent.first.now.hosts.value },
    ghost lawful: { ∥ IsBegun lent.run_screen.now.width lent.run_screen.now.height
        lent.run_screen.now.password (IsComing L.state H.came)
        (came_over lent.first.now.has_called.value (L.state lent.first.now.reader.value))
        (came_over has_called (L.state reader)) (map L.state parts.links.items)
        (P.updates lent.first.now.publisher.value) (P.updates parts.publisher) ∥₁ },
}

/// A run between two hosts. `last` is how reading the last host ended, or how joining it did.
pub struct IdleRun<'a, L: Link, H: Hosts<L>, P: Puts, W: Alarm + Drop, T: Drop> {
    lent: Lent<'a, L, H, P, W, T>,
    parts: RunParts<L, H, P>,
    last: Ending,
    ghost size: { HasSize P.width P.height parts.publisher lent.run_screen.now.width
        lent.run_screen.now.height },
    ghost again: { H.again parts.hosts ≡ H.again lent.first.now.hosts.value },
    ghost lawful: { ∥ HasRun lent.run_screen.now.width lent.run_screen.now.height
        lent.run_screen.now.password (IsComing L.state H.came) last
        (came_over lent.first.now.has_called.value (L.state lent.first.now.reader.value))
        (map L.state parts.links.items) (P.updates lent.first.now.publisher.value)
        (P.updates parts.publisher) ∥₁ },
}

/// A run for whose next host both ends of a connection have come: one to be read, and a sealed one to be written. The
/// host isn't joined yet.
pub struct MetRun<'a, L: Link, H: Hosts<L>, P: Puts, W: Alarm + Drop, T: Drop> {
    lent: Lent<'a, L, H, P, W, T>,
    parts: RunParts<L, H, P>,
    last: Ending,
    has_called: bool,
    reader: L,
    writer: SealedEnd<L>,
    ghost on: { goes_on last ≡ true },
    ghost size: { HasSize P.width P.height parts.publisher lent.run_screen.now.width
        lent.run_screen.now.height },
    ghost again: { H.again parts.hosts ≡ H.again lent.first.now.hosts.value },
    ghost lawful: { ∥ (H.came has_called reader
        × HasRun lent.run_screen.now.width lent.run_screen.now.height
        lent.run_screen.now.password (IsComing L.state H.came) last
        (came_over lent.first.now.has_called.value (L.state lent.first.now.reader.value))
        (map L.state parts.links.items) (P.updates lent.first.now.publisher.value)
        (P.updates parts.publisher)) ∥₁ },
}

/// A run that is over: after the end of its last host no further one is taken, or no host is left.
pub struct EndedRun<'a, L: Link, H: Hosts<L>, P: Puts, W: Alarm + Drop, T: Drop> {
    lent: Lent<'a, L, H, P, W, T>,
    parts: RunParts<L, H, P>,
    last: Ending,
    ghost lawful: { ∥ HasRun lent.run_screen.now.width lent.run_screen.now.height
        lent.run_screen.now.password (IsComing L.state H.came) last
        (came_over lent.first.now.has_called.value (L.state lent.first.now.reader.value))
        (map L.state parts.links.items) (P.updates lent.first.now.publisher.value)
        (P.updates parts.publisher) ∥₁ },
}

impl<'a, L: Link, H: Hosts<L>, P: Puts, W: Alarm + Drop, T: Drop> JoinedRun<'a, L, H, P, W, T> {
    /// A run that begins with this first host, for whose link there is room. Further hosts come from `hosts`.
    pub fn new(
        first: &'a RunBeginning<L, H, P>,
        run_screen: &'a RunScreen,
        handover: &'a Handover<L, W>,
        host: FirstHost<L>,
        hosts: H,
        publisher: P,
    ) -> Self
        requires first { (first.now.has_called.value ≡ host.has_called)
            × (first.now.reader.value ≡ host.reader) × (first.now.hosts.value ≡ hosts)
            × (first.now.publisher.value ≡ publisher) }
        requires room { (host.links.items ≡ []) × (0 < vec_capacity host.links) }
        requires size { (host.screen.decoder.width ≡ run_screen.now.width)
            × (host.screen.decoder.height ≡ run_screen.now.height) }
        requires pair { IsFor host.screen.decoder host.screen.painter }
        requires publisher { HasSize P.width P.height publisher run_screen.now.width
            run_screen.now.height }
        ensures parts { (result.has_called ≡ host.has_called) × (result.reader ≡ host.reader)
            × (result.screen ≡ host.screen) × (result.parts.links ≡ host.links)
            × (result.parts.publisher ≡ publisher) }
        ensures lent { (result.lent.first ≡ first.entry)
            × (result.lent.run_screen ≡ run_screen.entry) }
    {
        let FirstHost {
            reader,
            has_called,
            screen,
            links,
        } = host;
        let lent = Lent {
            run_screen,
            handover,
            first,
            key: PhantomData,
        };
        let parts = RunParts {
            hosts,
            links,
            publisher,
        };
        JoinedRun {
            lent,
            parts,
            has_called,
            reader,
            screen,
        }
    }

    /// It does nothing. Its clause is true at every moment from a host's join until its reading begins: it says what
    /// the run was before, how the host was joined, and that since then nothing was put but the switch to it. From then
    /// on `host_reader::Reading::so_far` says what is true.
    pub fn so_far(&self)
        ensures { ∥ IsBegun self.now.lent.run_screen.now.width self.now.lent.run_screen.now.height
            self.now.lent.run_screen.now.password (IsComing L.state H.came)
            (came_over self.now.lent.first.now.has_called.value
            (L.state self.now.lent.first.now.reader.value))
            (came_over self.now.has_called (L.state self.now.reader))
            (map L.state self.now.parts.links.items)
            (P.updates self.now.lent.first.now.publisher.value)
            (P.updates self.now.parts.publisher) ∥₁ }
    {}

    /// Where the thread that tells the hosts is handed the host's other end.
    pub(crate) fn handover(&self) -> &'a Handover<L, W> {
        self.lent.handover
    }

    /// Reads the host to its end. After that the host is told nothing more, and its link is added to the others. `by`
    /// is lent the host's reading, and nothing else.
    pub fn read<F: ReadsOn<L, P>>(self, by: &F) -> IdleRun<'a, L, H, P, W, T>
        requires { Decodes self.screen.decoder self.screen.painter opening
            (host_message self.lent.run_screen.now.width self.lent.run_screen.now.height) }
        ensures called { result.last
            ≡ record { answer = result.last.answer; has_called = self.entry.has_called } }
        ensures read { (left : LinkState)
            × (map L.state result.parts.links.items
            ≡ map L.state self.entry.parts.links.items ++ left ∷ [])
            × IsRead self.entry.lent.run_screen.now.width self.entry.lent.run_screen.now.height
            result.last.answer (L.state self.entry.reader) left
            (P.updates self.entry.parts.publisher) (P.updates result.parts.publisher) }
        ensures lent { result.lent ≡ self.entry.lent }
    {
        let JoinedRun {
            lent,
            mut parts,
            has_called,
            mut reader,
            screen,
        } = self;
        let alloc = lent.run_screen.alloc;
        let answer = read(by, alloc, &mut reader, screen, &mut parts.publisher);
        lent.handover.leave();
        // The answer is also kept: the kit's borrow checker wants its copy made before the call.
        let last = answer;
        parts.hosts.left(&mut reader, answer);
        // This isn't refused, since the room was taken before.
        let _ = parts.links.push(reader);
        IdleRun {
            lent,
            parts,
            last: Ending {
                answer: last,
                has_called,
            },
        }
    }
}

impl<'a, L: Link, H: Hosts<L>, P: Puts, W: Alarm + Drop, T: Drop> IdleRun<'a, L, H, P, W, T> {
    /// It does nothing. Its clause is true at every moment between two hosts. The published updates are those of the
    /// bytes that were taken from the hosts, in turn, with a switch before each host but the first. Over the end that
    /// is read no host was given anything after its join. The links so far are those of the hosts that were read.
    pub fn so_far(&self)
        ensures { ∥ HasRun self.now.lent.run_screen.now.width self.now.lent.run_screen.now.height
            self.now.lent.run_screen.now.password (IsComing L.state H.came) self.now.last
            (came_over self.now.lent.first.now.has_called.value
            (L.state self.now.lent.first.now.reader.value))
            (map L.state self.now.parts.links.items)
            (P.updates self.now.lent.first.now.publisher.value)
            (P.updates self.now.parts.publisher) ∥₁ }
    {}

    /// Asks for the next host, where one is taken after the end of the last. It answers the run that is over where none
    /// is taken, or none is left.
    pub fn next(self) -> Result<MetRun<'a, L, H, P, W, T>, EndedRun<'a, L, H, P, W, T>>
        ensures came { IfOk result (λ met. H.came met.has_called met.reader) }
        ensures met { IfOk result (λ met. (met.last ≡ self.entry.last)
            × (met.parts.links ≡ self.entry.parts.links)
            × (met.parts.publisher ≡ self.entry.parts.publisher)
            × (met.lent ≡ self.entry.lent)) }
        ensures ended { IfErr result (λ ended. (ended.last ≡ self.entry.last)
            × (ended.parts.links ≡ self.entry.parts.links)
            × (ended.parts.publisher ≡ self.entry.parts.publisher)) }
        ensures over { IfErr result (λ ended. IsOver H.are_out ended.parts.hosts ended.last) }
        ensures never { IfErr result (λ ended.
            goes_on ended.last ≡ true → H.again self.entry.lent.first.now.hosts.value ≡ None) }
    {
        let IdleRun {
            lent,
            mut parts,
            last,
        } = self;
        if !goes_on(&last) {
            return Err(EndedRun { lent, parts, last });
        }
        let Some(host) = parts.hosts.next() else {
            return Err(EndedRun { lent, parts, last });
        };
        let HostEnds {
            reader,
            writer,
            has_called,
        } = host;
        Ok(MetRun {
            lent,
            parts,
            last,
            has_called,
            reader,
            writer: SealedEnd::new(writer),
        })
    }
}

impl<'a, L: Link, H: Hosts<L>, P: Puts, W: Alarm + Drop, T: Drop> MetRun<'a, L, H, P, W, T> {
    /// It does nothing. Its clause is true at every moment from a host's coming until its join begins: it says what the
    /// run was before, and that the end to be read is as it came.
    pub fn so_far(&self)
        ensures { ∥ (H.came self.now.has_called self.now.reader
            × HasRun self.now.lent.run_screen.now.width self.now.lent.run_screen.now.height
            self.now.lent.run_screen.now.password (IsComing L.state H.came) self.now.last
            (came_over self.now.lent.first.now.has_called.value
            (L.state self.now.lent.first.now.reader.value))
            (map L.state self.now.parts.links.items)
            (P.updates self.now.lent.first.now.publisher.value)
            (P.updates self.now.parts.publisher)) ∥₁ }
    {}

    /// Joins the host within the room, and then puts the switch to it. It answers the run whose host is joined, with
    /// the sealed end over which the host is told; or the run without the host, where it is missed. `by` is lent the
    /// host's join, and nothing else.
    pub fn join<F: JoinsOn<L>>(
        self,
        by: &F,
    ) -> Result<(JoinedRun<'a, L, H, P, W, T>, SealedEnd<L>), IdleRun<'a, L, H, P, W, T>>
        ensures met { IfOk result (λ joined.
            IsMet self.entry.lent.run_screen.now.width self.entry.lent.run_screen.now.height
            self.entry.lent.run_screen.now.password (L.state self.entry.reader)
            (L.state joined.0.reader) (P.updates self.entry.parts.publisher)
            (P.updates joined.0.parts.publisher)) }
        ensures begins { IfOk result (λ joined.
            Decodes joined.0.screen.decoder joined.0.screen.painter opening
            (host_message self.entry.lent.run_screen.now.width
            self.entry.lent.run_screen.now.height)) }
        ensures called { IfOk result (λ joined. joined.0.has_called ≡ self.entry.has_called) }
        ensures joined { IfOk result (λ joined.
            (joined.0.parts.links.items ≡ self.entry.parts.links.items)
            × (joined.0.lent ≡ self.entry.lent)) }
        ensures missed { IfErr result (λ run. (fault : Fault)
            × (run.last ≡ record { answer = Err fault; has_called = self.entry.has_called })
            × IsMissed self.entry.lent.run_screen.now.width self.entry.lent.run_screen.now.height
            self.entry.lent.run_screen.now.password
            (length (P.updates self.entry.parts.publisher)) fault (L.state self.entry.reader)) }
        ensures unread { IfErr result (λ run.
            (run.parts.links.items ≡ self.entry.parts.links.items)
            × (P.updates run.parts.publisher ≡ P.updates self.entry.parts.publisher)
            × (run.lent ≡ self.entry.lent)) }
    {
        let MetRun {
            lent,
            mut parts,
            last: _,
            has_called,
            mut reader,
            writer,
        } = self;
        let met = meet(
            by,
            lent.run_screen,
            &mut parts.hosts,
            &mut reader,
            &mut parts.links,
            &mut parts.publisher,
        );
        match met {
            Ok(screen) => {
                let joined = JoinedRun {
                    lent,
                    parts,
                    has_called,
                    reader,
                    screen,
                };
                Ok((joined, writer))
            }
            Err(fault) => {
                // The fault is also kept, so it is copied first.
                let why = fault;
                let last = Ending {
                    answer: Err(fault),
                    has_called,
                };
                parts.hosts.left(&mut reader, Err(why));
                Err(IdleRun { lent, parts, last })
            }
        }
    }
}

impl<'a, L: Link, H: Hosts<L>, P: Puts, W: Alarm + Drop, T: Drop> EndedRun<'a, L, H, P, W, T> {
    /// Where the thread that tells the hosts is told that no other comes.
    pub(crate) fn handover(&self) -> &'a Handover<L, W> {
        self.lent.handover
    }

    /// What the run had, as it ended: how its last host has ended, where further hosts come from, the links of the
    /// hosts that were read, and the publisher.
    pub fn into_parts(self, _key: T) -> (Ending, H, Vec<L>, P)
        ensures { (result.0 ≡ self.entry.last) × (result.1 ≡ self.entry.parts.hosts)
            × (result.2 ≡ self.entry.parts.links) × (result.3 ≡ self.entry.parts.publisher) }
    {
        let EndedRun { lent, parts, last } = self;
        let Lent {
            run_screen: _,
            handover: _,
            first: _,
            key: _,
        } = lent;
        let RunParts {
            hosts,
            links,
            publisher,
        } = parts;
        (last, hosts, links, publisher)
    }
}
