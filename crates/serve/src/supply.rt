//! The hosts that follow on one that has ended.

ghost use Rattle.std.specs.Prelude.{◌≡◌, ◌⊎◌, ◌-◌, ◌≤◌, ⊤, IfOk, IfSome, IsNone, None, false, is_some, length, true};
ghost use Rattle.run_traits.specs.Unused.{unused};
ghost use Rattle.settings.specs.Rooms.{FitsInto};
ghost use Rattle.serve.specs.Hosts.{end_state, is_closed, is_untimed};
ghost use Rattle.serve.specs.Turns.{endless, turn_of};
ghost use Rattle.serve.specs.Stops.{IsOut};

use crate::ended::PlayedEnd;
use crate::held_host::HeldHost;
use crate::host_end::HostEnd;
use crate::incident::{Incident, RunLog};
use crate::lifeline::{Lifeline, Recall};
use crate::meet::{Met, Missed, Reached, Terms, called, connect_by_text, join, opened};
use crate::noted_tries::NotedTries;
use crate::order::{SkipOrder, StopOrder};
use crate::quoted::Quoted;
use crate::rested::Rested;
use crate::trouble::{Stage, Trouble};
use crate::turns::Turns;
use connections::{Desk, HostCard, HostListener};
use fault::Fault;
use host_turns::{HostEnds, Hosts};
use playback::BadPlayback;
use player::{Player, UnusedIndex};
use rfb_wire::Joined;
use run_traits::{Event, Log, clock_millis};
use settings::recording_path;
use std::alloc::Global;
use std::fs::File;
use std::io::ErrorKind;
use std::net::{Net, SocketAddr, TcpListener, TcpStream};
use std::rt::Files;
use std::sync::{Arc, Wait};
use std::time::{Clock, Duration};
use std::{io, thread};

/// For how long nobody is waited for after the system refused a call, in milliseconds.
const PAUSE_MILLIS: u64 = 100;

/// The hosts of a run, as its settings name them.
#[derive(Drop)]
pub(crate) struct NamedHosts {
    /// The texts that say where the hosts are, by their numbers.
    pub(crate) texts: Vec<String>,
    /// Where hosts call, by their numbers: none where a host is connected to.
    pub(crate) callers: Vec<Option<HostListener>>,
    /// What plays the hosts that are recordings.
    pub(crate) player: Arc<Player, Global>,
    /// The number of seconds after which the first has its turn again, once all the others had theirs, if at all.
    pub(crate) again: Option<u64>,
}

/// The hosts over TCP, in their order. One that can't be reached is passed over. The log is told of the tries of a
/// round as `NotedTries` says.
#[derive(Drop)]
pub(crate) struct Supply<
    R: Net<Stream = TcpStream, Listener = TcpListener> + Wait + Clock + Copy + Drop,
    G: RunLog + Drop,
> {
    rt: R,
    alloc: Global,
    log: G,
    /// The desk, which knows the host that is joined.
    pub(crate) desk: Arc<Desk, Global>,
    /// The texts that say where the hosts are, by their numbers.
    texts: Vec<String>,
    /// Where hosts call, by their numbers: none where a host is connected to.
    callers: Vec<Option<HostListener>>,
    /// What plays the hosts that are recordings.
    player: Arc<Player, Global>,
    turns: Turns,
    noted_tries: NotedTries,
    /// Where the host whose turn it is was reached, if it was.
    present: Option<SocketAddr>,
    /// Whether that host was joined.
    is_joined: bool,
    /// The number of that host, if it has called and wasn't joined. The next that calls there has its turn.
    called: Option<usize>,
    /// The number of that host, if it is a recording. It has its turn again where another time of it is sought.
    played: Option<usize>,
    /// How the host has ended that was left last, if it is a recording that wasn't played to its end.
    pub(crate) last_end: Option<PlayedEnd>,
    /// What an operator ends the run by, or the turn of a host, if one can.
    lifeline: Option<Arc<Lifeline<StopOrder, SkipOrder>, Global>>,
    /// What showed that the run was asked to stop, if it was seen.
    stopped: Option<StopOrder>,
}

impl<
    R: Net<Stream = TcpStream, Listener = TcpListener>
        + Files<File = File>
        + Wait
        + Clock
        + Copy
        + Drop,
    G: RunLog + Drop,
> Supply<R, G> {
    ghost use Rattle.raster.specs.Size.{IsScreenSize};

    /// The first of these hosts has its turn. Where there is a lifeline the run ends once that was cut.
    pub(crate) fn new(
        rt: R,
        alloc: Global,
        log: G,
        desk: Arc<Desk, Global>,
        hosts: NamedHosts,
        lifeline: Option<Arc<Lifeline<StopOrder, SkipOrder>, Global>>,
    ) -> Supply<R, G>
        ensures texts { result.texts ≡ hosts.texts }
        ensures hosts { (result.turns.further ≡ length hosts.texts.items - 1)
            × (result.turns.done ≡ 0) }
        ensures again { result.turns.again ≡ hosts.again }
        ensures lifeline { is_some result.lifeline ≡ is_some lifeline }
    {
        let NamedHosts {
            texts,
            callers,
            player,
            again,
        } = hosts;
        let further = texts.len().saturating_sub(1);
        Supply {
            rt,
            alloc,
            log,
            desk,
            texts,
            callers,
            player,
            turns: Turns::new(further, again),
            noted_tries: NotedTries::new(),
            present: None,
            is_joined: false,
            called: None,
            played: None,
            last_end: None,
            lifeline,
            stopped: None,
        }
    }

    /// Whether hosts are tried until one is met, or the first one calls, so that it isn't known when there is a host.
    pub(crate) fn waits(&self) -> bool {
        self.turns.again().is_some() || matches!(self.callers.first(), Some(Some(_)))
    }

    /// Meets the first host, which is joined on these terms, and fits into their room. Where it is to be tried again,
    /// hosts have their turns until one is met, so that only a lack of memory is an error. Where it calls, the next
    /// that calls has its turn until one is met.
    pub(crate) fn first(&mut self, terms: &Terms) -> Result<Met<R>, Trouble>
        ensures size { IfOk result (λ met. IsScreenSize met.joined.w met.joined.h) }
        ensures fits { IfOk result (λ met. FitsInto terms.now.room met.joined.w met.joined.h) }
        ensures untimed { IfOk result (λ met.
            (is_untimed met.reader ≡ true) × (is_untimed met.writer ≡ true)) }
        ensures password { IfOk result (λ met. met.password ≡ terms.now.password) }
        ensures again { self.new.turns.again ≡ self.old.turns.again }
        ensures lifeline { self.new.lifeline ≡ self.old.lifeline }
    {
        let rt = self.rt;
        let mut number = 0;
        for _ in rt.forever() {
            let trouble = match self.meet(number, terms) {
                Ok(met) => return Ok(met),
                Err(trouble) => trouble,
            };
            let is_tried = self.turns.again().is_some()
                || self.called.is_some()
                || self.sought().is_some();
            if !is_tried || trouble.is_final() || self.is_cut().is_some() {
                return Err(trouble);
            }
            number = match self.next_number() {
                Some(number) => number,
                None => return Err(trouble),
            };
        }
        unreachable!()
    }

    /// Meets the host of this number, on these terms.
    fn meet(&mut self, number: usize, terms: &Terms) -> Result<Met<R>, Trouble>
        ensures size { IfOk result (λ met. IsScreenSize met.joined.w met.joined.h) }
        ensures fits { IfOk result (λ met. FitsInto terms.now.room met.joined.w met.joined.h) }
        ensures untimed { IfOk result (λ met.
            (is_untimed met.reader ≡ true) × (is_untimed met.writer ≡ true)) }
        ensures password { IfOk result (λ met. met.password ≡ terms.now.password) }
        ensures again { self.new.turns.again ≡ self.old.turns.again }
        ensures lifeline { self.new.lifeline ≡ self.old.lifeline }
    {
        let ends = match self.reach(number) {
            Ok(ends) => ends,
            Err(missed) => return Err(missed.trouble()),
        };
        match join(&self.rt, number, terms, ends) {
            Ok(met) => {
                let Met {
                    mut reader,
                    writer,
                    has_called,
                    joined,
                    password,
                } = met;
                self.joined(&mut reader, &joined);
                Ok(Met {
                    reader,
                    writer,
                    has_called,
                    joined,
                    password,
                })
            }
            Err(trouble) => {
                let bad = match trouble.stage {
                    Stage::Play(_, bad) => Some(bad),
                    _ => None,
                };
                self.note_out(Err(trouble.fault), bad);
                Err(trouble)
            }
        }
    }

    /// What shows that an operator has asked the run to stop, if one has.
    fn is_cut(&self) -> Option<StopOrder>
        ensures { is_some result ≡ true → is_some self.now.lifeline ≡ true }
    {
        match &self.lifeline {
            Some(lifeline) => lifeline.is_cut(&self.rt),
            None => None,
        }
    }

    /// The ends of a connection to a host that is read from now on.
    fn take_up(&self, reached: Reached<R>) -> HostEnds<HostEnd<R>>
        ensures { (result.reader ≡ reached.reader) × (result.writer ≡ reached.writer)
            × (result.has_called ≡ reached.has_called) }
    {
        let Reached {
            address: _,
            grip,
            reader,
            writer,
            has_called,
            unused_index: _,
        } = reached;
        if let Some(lifeline) = &self.lifeline {
            lifeline.hold(&self.rt, HeldHost::new(grip, self.turns.successor()));
        }
        HostEnds {
            reader,
            writer,
            has_called,
        }
    }

    /// Waits for the host that calls here next, unless the run is to stop.
    fn await_call(&self, listener: &HostListener) -> Result<Reached<R>, Missed>
        ensures untimed { IfOk result (λ reached. is_untimed reached.writer ≡ true) }
        ensures fresh { IfOk result (λ reached.
            (end_state reached.reader ≡ unused) × (end_state reached.writer ≡ unused)) }
        ensures called { IfOk result (λ reached. reached.has_called ≡ true) }
    {
        let rt = self.rt;
        for _ in rt.forever() {
            if self.is_cut().is_some() {
                return Err(Missed {
                    address: None,
                    stage: Stage::Connect,
                    error: io::Error::from(ErrorKind::Interrupted),
                });
            }
            match called(rt, listener) {
                Ok(Some(reached)) => return Ok(reached),
                Ok(None) => {}
                Err(_) => thread::sleep(&rt, Duration::from_millis(PAUSE_MILLIS)),
            }
        }
        unreachable!()
    }

    /// The text of the host of this number.
    fn text(&self, number: usize) -> &str {
        match self.texts.get(number) {
            Some(text) => text.as_str(),
            None => "",
        }
    }

    /// Connects to the host of this number, waits for its call, or opens it where it is a recording.
    fn try_host(&self, number: usize) -> Result<Reached<R>, Missed>
        ensures untimed { IfOk result (λ reached. is_untimed reached.writer ≡ true) }
        ensures fresh { IfOk result (λ reached.
            (end_state reached.reader ≡ unused) × (end_state reached.writer ≡ unused)) }
    {
        match self.callers.get(number) {
            Some(Some(listener)) => self.await_call(listener),
            _ => match recording_path(self.text(number)) {
                Some(path) => opened(self.rt, self.alloc, path, &self.player),
                None => connect_by_text(self.rt, self.text(number)),
            },
        }
    }

    /// Tells the log how a try to reach the host of this number ended, unless it ended since the run is to stop.
    fn tell_try(&self, number: usize, refused: Option<ErrorKind>) {
        let is_stopped = matches!(refused, Some(ErrorKind::Interrupted));
        if self.noted_tries.is_noted() && !is_stopped {
            self.log.note(&Event::HostTried {
                host: self.text(number),
                address: self.present,
                refused,
            });
        }
    }

    /// Tells the log why the index beside the recording of this number isn't used, if it has one that isn't.
    fn tell_unused(&self, number: usize, unused: Option<UnusedIndex>) {
        if let (Some(why), Some(path)) = (unused, recording_path(self.text(number))) {
            self.log.note_incident(&Incident::IndexUnused(path, why));
        }
    }

    /// Tries to reach the host of this number, whose turn it is, and tells the log how the try ended, unless it ended
    /// since the run is to stop.
    fn reach(&mut self, number: usize) -> Result<HostEnds<HostEnd<R>>, Missed>
        ensures untimed { IfOk result (λ ends. is_untimed ends.writer ≡ true) }
        ensures fresh { IfOk result (λ ends.
            (end_state ends.reader ≡ unused) × (end_state ends.writer ≡ unused)) }
        ensures turns { self.new.turns ≡ self.old.turns }
        ensures texts { self.new.texts ≡ self.old.texts }
        ensures lifeline { self.new.lifeline ≡ self.old.lifeline }
    {
        self.is_joined = false;
        self.called = None;
        self.played = recording_path(self.text(number)).map(|_| number);
        let tried = self.try_host(number);
        let refused = match &tried {
            Ok(reached) => {
                self.present = reached.address;
                if reached.has_called {
                    self.called = Some(number);
                }
                None
            }
            Err(missed) => {
                self.present = missed.address;
                Some(missed.error.kind())
            }
        };
        self.tell_try(number, refused);
        match tried {
            Ok(reached) => {
                self.tell_unused(number, reached.unused_index);
                Ok(self.take_up(reached))
            }
            Err(missed) => {
                self.noted_tries.fail(&self.rt);
                Err(missed)
            }
        }
    }

    /// Tells the desk that a host is joined, and has it counted when bytes come over this link. Where memory is refused
    /// for its name it is told without one.
    fn note_joined(&self, reader: &mut HostEnd<R>, host: &Joined)
        ensures { reader.new ≡ reader.old }
    {
        let name = Quoted {
            bytes: host.name.as_slice(),
        };
        let name = match format!(in self.alloc; "{name}") {
            Ok(name) => name,
            Err(_) => String::new(self.alloc),
        };
        self.desk.host_joined(
            &self.rt,
            HostCard {
                address: self.present,
                name,
                width: host.w,
                height: host.h,
                since: clock_millis(&self.rt),
            },
        );
        if let Ok(count) = Arc::try_clone(self.desk.count()) {
            count.hear(&self.rt);
            reader.count_by(count);
        }
    }

    /// How the host has ended that answered so, if it is a recording that wasn't played to its end: it ended inside a
    /// message, or it can't be played on, for this reason.
    fn played_end(&self, why: &Result<(), Fault>, bad: Option<BadPlayback>) -> Option<PlayedEnd> {
        let number = self.played?;
        match (why, bad) {
            (Err(Fault::LinkFailed), Some(bad)) => Some(PlayedEnd::Bad(number, bad)),
            (Err(Fault::LinkEnded), _) if self.is_joined => Some(PlayedEnd::CutOff),
            _ => None,
        }
    }

    /// Notes how a host has ended that was left, and tells the log, unless it wasn't joined and the tries of its round
    /// aren't noted. `bad` is why it can't be played on, if it is a recording that can't.
    fn note_out(&mut self, why: Result<(), Fault>, bad: Option<BadPlayback>)
        ensures turns { self.new.turns ≡ self.old.turns }
        ensures texts { self.new.texts ≡ self.old.texts }
        ensures lifeline { self.new.lifeline ≡ self.old.lifeline }
    {
        let cut = self.is_cut();
        let skipped = match &self.lifeline {
            Some(lifeline) => lifeline.let_go(&self.rt),
            None => None,
        };
        self.last_end = self.played_end(&why, bad);
        self.desk.host_left(&self.rt);
        self.player.end(&self.rt);
        if !self.is_joined {
            self.noted_tries.fail(&self.rt);
        }
        if self.is_joined || self.noted_tries.is_noted() {
            self.tell_out(why, cut, skipped);
        }
    }

    /// Tells the log why a host was left. Where the run was asked to stop, that is the reason, however the host's link
    /// ended. Where it was asked for its next host, that is, too, unless the host was at fault by then. A recording
    /// that is cut off has ended, and of one that can't be played on the reason is told.
    fn tell_out(&self, why: Result<(), Fault>, cut: Option<StopOrder>, skipped: Option<SkipOrder>) {
        let has_ended = matches!(why, Ok(()) | Err(Fault::LinkEnded));
        let why = match self.last_end {
            Some(PlayedEnd::CutOff) => Ok(()),
            _ => why,
        };
        let event = Event::HostOut {
            address: self.present,
            why,
        };
        let incident = match (cut, skipped, self.last_end) {
            (Some(cut), _, _) => Incident::HostStopped(self.present, cut),
            (None, Some(skip), _) if has_ended => Incident::HostSkipped(self.present, skip),
            (None, None, _) if has_ended && self.sought().is_some() => Incident::RecordingSought,
            (None, _, Some(PlayedEnd::Bad(_, bad))) => Incident::RecordingBad(bad),
            _ => Incident::Noted(&event),
        };
        self.log.note_incident(&incident);
    }

    /// The pause before the first host has its turn again, unless the run is to stop.
    fn pause(&mut self, seconds: u64) -> Option<Rested>
        ensures rested { IfSome result (λ rested. rested.seconds ≡ seconds) }
        ensures stopped { IsNone result
            → (is_some self.new.stopped ≡ true) × (is_some self.new.lifeline ≡ true) }
        ensures turns { self.new.turns ≡ self.old.turns }
        ensures texts { self.new.texts ≡ self.old.texts }
        ensures lifeline { self.new.lifeline ≡ self.old.lifeline }
    {
        let Some(lifeline) = &self.lifeline else {
            return Some(Rested::after(&self.rt, seconds));
        };
        let recall = Recall {
            rt: &self.rt,
            lifeline,
        };
        match Rested::after_unless(&self.rt, seconds, &recall) {
            Ok(rested) => Some(rested),
            Err(cut) => {
                self.stopped = Some(cut);
                None
            }
        }
    }

    /// The number of the host that has its turn next; the first host has it after its pause. There is none where each
    /// host had its turn and the first is to have no other, or where the run is to stop.
    fn turn(&mut self) -> Option<usize>
        ensures value { (result ≡ turn_of self.old.turns) ⊎ (is_some self.new.stopped ≡ true) }
        ensures texts { self.new.texts ≡ self.old.texts }
        ensures lifeline { self.new.lifeline ≡ self.old.lifeline }
        ensures again { self.new.turns.again ≡ self.old.turns.again }
        ensures out { IsNone result → IsOut self.new.turns self.new.stopped self.new.lifeline }
    {
        if let Some(number) = self.turns.next() {
            return Some(number);
        }
        let seconds = self.turns.again()?;
        let rested = self.pause(seconds)?;
        self.noted_tries.begin(&self.rt);
        Some(self.turns.begin_anew(rested))
    }

    /// The number of the host whose turn it was, if it is a recording of which another time is sought.
    fn sought(&self) -> Option<usize> {
        let number = self.played?;
        if self.player.is_sought(&self.rt) {
            return Some(number);
        }
        None
    }

    /// The number of the host that is tried next: that of a host that has called and wasn't joined, so that the next
    /// that calls there has its turn; that of a recording of which another time is sought; or else that of the host
    /// whose turn it is.
    fn next_number(&mut self) -> Option<usize>
        ensures texts { self.new.texts ≡ self.old.texts }
        ensures lifeline { self.new.lifeline ≡ self.old.lifeline }
        ensures again { self.new.turns.again ≡ self.old.turns.again }
        ensures out { IsNone result → IsOut self.new.turns self.new.stopped self.new.lifeline }
    {
        if let Some(number) = self.called.take() {
            self.noted_tries.begin(&self.rt);
            return Some(number);
        }
        if let Some(number) = self.sought() {
            return Some(number);
        }
        self.turn()
    }
}

impl<
    R: Net<Stream = TcpStream, Listener = TcpListener>
        + Files<File = File>
        + Wait
        + Clock
        + Copy
        + Drop,
    G: RunLog + Drop,
> Hosts<HostEnd<R>> for Supply<R, G> {
    ghost use Rattle.std.specs.Prelude.{◌≡◌, ◌⊎◌, ◌≤◌, ⊤, None, true};
    ghost use Rattle.serve.specs.Hosts.{end_state, is_closed, is_untimed};

    ghost came = { λ _ _. ⊤ };

    ghost are_out = { λ supply. IsOut supply.turns supply.stopped supply.lifeline };

    // Where an operator may end the run nothing is said of hosts that come again.
    ghost again = { λ supply. endless (is_some supply.lifeline) supply.turns.again };

    #[tactic(auto, using(crate::proofs::Stopping::never))]
    fn next(&mut self) -> Option<HostEnds<HostEnd<R>>> {
        let rt = self.rt;
        for _ in rt.forever() {
            self.stopped = self.is_cut();
            if self.stopped.is_some() {
                return None;
            }
            let number = self.next_number()?;
            if let Ok(ends) = self.reach(number) {
                return Some(ends);
            }
        }
        unreachable!()
    }

    /// Lifts the deadline of the link that is read. Where the system refuses that, the link is closed, so that the next
    /// host has its turn.
    fn joined(&mut self, reader: &mut HostEnd<R>, host: &Joined)
        ensures link { end_state reader.new ≡ end_state reader.old }
        ensures again { self.new.turns.again ≡ self.old.turns.again }
        ensures untimed { (is_untimed reader.new ≡ true) ⊎ (is_closed reader.new ≡ true) }
        ensures kept { is_untimed reader.old ≡ true → is_untimed reader.new ≡ true }
        ensures lifeline { self.new.lifeline ≡ self.old.lifeline }
    {
        if reader.lift().is_err() {
            reader.close();
        }
        self.is_joined = true;
        self.called = None;
        self.noted_tries = NotedTries::new();
        self.note_joined(reader, host);
        self.log.note(&Event::HostJoined {
            address: self.present,
            name: host.name.as_slice(),
            width: host.w,
            height: host.h,
        });
    }

    fn left(&mut self, reader: &mut HostEnd<R>, why: Result<(), Fault>) {
        let bad = reader.why();
        reader.close();
        self.note_out(why, bad);
    }
}
