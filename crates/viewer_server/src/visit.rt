//! One viewer's visit: whatever is done to a viewer, a source and a sink is done by one of its few steps.

ghost use Rattle.std.specs.Prelude.{◌≡◌, ◌++◌, ◌<◌, ◌↔◌, Bool, None, true, false, [], List, IfOk, IsTrue, length, is_some};
ghost use Rattle.reflect_core.specs.Sequential.{Begins};
ghost use Rattle.link.specs.Links.{LinkState};
ghost use Rattle.roles.specs.Allowed.{Input};
ghost use Rattle.roles.specs.Held.{left_in};
ghost use Rattle.roles.specs.declared.role.Role as roles;
ghost use Rattle.viewer_session.specs.Acts.{waiting_list};
ghost use Rattle.viewer_session.specs.Session.{IsSameSession, Stands};
ghost use Rattle.viewer_session.specs.Viewer.{Setup, Viewer, new_viewer};
ghost use Rattle.viewer_server.specs.Moment.{IsUnderWay, IsVisited, ServesSoFar};
ghost use Rattle.viewer_server.specs.Steps.{GoesOn, Hears, Offers, Passes, Says, SaysNoMore, WaitsIfLeft, all_passed};

use crate::breaks::Break;
use crate::inbox::Inbox;
use crate::progress::Progress;
use crate::serve::{hear, offer, relay, say};
use fault::Fault;
use link::Link;
use painter::Wanted;
use reflect_core::ScreenSource;
use roles::InputSink;
use std::marker::PhantomData;
use std::snapshot::Snapshot;
use viewer_session::Session;

/// How a visit began. At run time it has no bytes: only clauses read it.
pub struct Beginning<L, S, K> {
    pub link: Snapshot<L>,
    pub source: Snapshot<S>,
    pub sink: Snapshot<K>,
    pub session: Snapshot<Session>,
}

impl<L, S, K> Drop for Beginning<L, S, K> {
    fn drop(self) {
        let Beginning {
            link: _,
            source: _,
            sink: _,
            session: _,
        } = self;
    }
}

impl<L, S, K> Beginning<L, S, K> {
    /// The beginning of a visit with this link, this source, this sink and this session.
    pub fn of(link: &L, source: &S, sink: &K, session: &Session) -> Self
        ensures link { result.link.value ≡ link.now }
        ensures source { result.source.value ≡ source.now }
        ensures sink { result.sink.value ≡ sink.now }
        ensures session { result.session.value ≡ session.now }
    {
        Beginning {
            link: Snapshot::of(link),
            source: Snapshot::of(source),
            sink: Snapshot::of(sink),
            session: Snapshot::of(session),
        }
    }
}

/// A viewer's link, the source of what it is shown, the sink of its input, and its session.
///
/// Only a visit's own steps use these while the visit has them. No step takes a handle, so each is proved to end where
/// the calls of the link, the source and the sink end, and `lawful` holds at its end. So `so_far` is true whenever
/// steps were called, in whatever order and for however long. A `T` is the key that takes a visit apart: whoever is
/// lent a visit can't make one.
pub struct Visit<'a, L: Link, S: ScreenSource, K: InputSink, T: Drop> {
    link: L,
    source: S,
    sink: K,
    session: Session,
    inbox: Inbox,
    // Whether the viewer is served. Else what is left of its input goes to the sink.
    is_served: bool,
    // How it all began. It is lent, so no step can put another beginning in its place.
    first: &'a Beginning<L, S, K>,
    key: PhantomData<T>,
    ghost screen: { (S.width source ≡ session.width) × (S.height source ≡ session.height) },
    ghost lawful: { ∥ ((s : Setup) (role : roles.Role) (greet : Bool)
        → Stands s first.now.session.value (new_viewer role greet)
        → IsVisited is_served S.looks S.cuts first.now.source.value source (S.known source)
        (S.answered source) s (new_viewer role greet) session inbox (K.sent first.now.sink.value)
        (K.sent sink) (L.state first.now.link.value) (L.state link)) ∥₁ },
}

impl<'a, L: Link, S: ScreenSource, K: InputSink, T: Drop> Visit<'a, L, S, K, T> {
    /// A visit that begins. The session is new: it has cut nothing yet.
    pub fn new(first: &'a Beginning<L, S, K>, link: L, source: S, sink: K, session: Session) -> Self
        requires first { (first.now.link.value ≡ link) × (first.now.source.value ≡ source)
            × (first.now.sink.value ≡ sink) × (first.now.session.value ≡ session) }
        requires screen { (S.width source ≡ session.width) × (S.height source ≡ session.height) }
        requires uncut { session.asked.last ≡ None }
        ensures parts { (result.link ≡ link) × (result.source ≡ source) × (result.sink ≡ sink)
            × (result.session ≡ session) }
        ensures begins { (result.inbox ≡ all_passed) × (result.is_served ≡ true) }
        ensures first { result.first ≡ first.entry }
    {
        Visit {
            link,
            source,
            sink,
            session,
            inbox: Inbox::new(),
            is_served: true,
            first,
            key: PhantomData,
        }
    }

    /// What the visit had, as it is left.
    pub fn into_parts(self, _key: T) -> (L, S, K, Session)
        ensures { (result.0 ≡ self.entry.link) × (result.1 ≡ self.entry.source)
            × (result.2 ≡ self.entry.sink) × (result.3 ≡ self.entry.session) }
    {
        let Visit {
            link,
            source,
            sink,
            session,
            inbox: _,
            is_served: _,
            first: _,
            key: _,
        } = self;
        (link, source, sink, session)
    }

    /// It does nothing. Its clause says what is true of the visit at every moment.
    pub fn so_far(&self)
        ensures { ∥ ((s : Setup) (role : roles.Role) (greet : Bool)
            → Stands s self.now.first.now.session.value (new_viewer role greet)
            → ServesSoFar S.looks S.cuts self.now.first.now.source.value
            self.now.source (S.known self.now.source) s (new_viewer role greet)
            (K.sent self.now.first.now.sink.value) (K.sent self.now.sink)
            (L.state self.now.first.now.link.value) (L.state self.now.link)) ∥₁ }
    {}

    /// How many answers were begun for the viewer, for a log.
    pub fn answers(&self) -> u64 {
        self.session.answers()
    }

    /// Whether an input waits for room in the sink.
    pub(crate) fn waits(&self) -> bool
        ensures { result ≡ is_some self.now.inbox.waiting }
    {
        self.inbox.waits()
    }

    /// Whether bytes are unsent.
    pub(crate) fn has_unsent(&self) -> bool
        ensures { IsTrue result ↔ (0 < length self.now.session.unsent) }
    {
        !self.session.out().is_empty()
    }

    /// Passes on an input that waits, and reads the bytes after it. It answers whether the sink is full.
    pub(crate) fn relay(&mut self) -> Result<bool, Break>
        requires { self.old.is_served ≡ true }
        ensures keeps { (a : S) (s : Setup) (p : Viewer) (x : List Input) (l : LinkState)
            → IsUnderWay S.looks S.cuts a self.old.source (S.known self.old.source)
            (S.answered self.old.source) s p self.old.session self.old.inbox
            x (K.sent self.old.sink) false l (L.state self.old.link)
            → IsUnderWay S.looks S.cuts a self.new.source (S.known self.new.source)
            (S.answered self.new.source) s p self.new.session self.new.inbox x
            (K.sent self.new.sink) false l (L.state self.new.link) }
        ensures same { IsSameSession self.old.session self.new.session }
        ensures goes_on { GoesOn K.may_refuse result self.old.session self.new.session
            self.old.inbox self.new.inbox (K.sent self.old.sink) (K.sent self.new.sink) }
        ensures left { WaitsIfLeft self.new.inbox }
        ensures others { (self.new.link ≡ self.old.link) × (self.new.source ≡ self.old.source)
            × (self.new.is_served ≡ true) × (self.new.first ≡ self.old.first) }
    {
        relay(&mut self.sink, &mut self.session, &mut self.inbox)
    }

    /// Unless bytes are unsent, the session has a turn. It answers whether no bytes were unsent.
    pub(crate) fn offer<P: Progress>(&mut self, progress: &P) -> Result<bool, Fault>
        requires { self.old.is_served ≡ true }
        ensures grows { Begins (S.known self.old.source) (S.known self.new.source) }
        ensures keeps { IfOk result (λ is_offered.
            (a : S) (s : Setup) (p : Viewer) (x : List Input) (l : LinkState)
            → IsUnderWay S.looks S.cuts a self.old.source (S.known self.old.source)
            (S.answered self.old.source) s p self.old.session self.old.inbox
            x (K.sent self.old.sink) false l (L.state self.old.link)
            → IsUnderWay S.looks S.cuts a self.new.source (S.known self.new.source)
            (S.answered self.new.source) s p self.new.session self.new.inbox x
            (K.sent self.new.sink) is_offered l (L.state self.new.link)) }
        ensures offers { Offers S.looks S.cuts S.may_end self.old.source self.new.source
            self.old.session self.new.session (S.known self.new.source)
            (S.answered self.old.source) (S.answered self.new.source) result }
        ensures others { (self.new.link ≡ self.old.link) × (self.new.sink ≡ self.old.sink)
            × (self.new.inbox ≡ self.old.inbox) × (self.new.first ≡ self.old.first) }
        ensures ok { IfOk result (λ _. self.new.is_served ≡ true) }
    {
        let offered = offer(&mut self.source, &mut self.session, progress);
        self.is_served = offered.is_ok();
        offered
    }

    /// Gives the link as many of the unsent bytes as it takes now.
    pub(crate) fn say(&mut self) -> Result<(), Fault>
        requires { self.old.is_served ≡ true }
        ensures keeps { (a : S) (s : Setup) (p : Viewer)
            (x : List Input) (l : LinkState) (is_offered : Bool)
            → IsUnderWay S.looks S.cuts a self.old.source (S.known self.old.source)
            (S.answered self.old.source) s p self.old.session self.old.inbox
            x (K.sent self.old.sink) is_offered l (L.state self.old.link)
            → IsUnderWay S.looks S.cuts a self.new.source (S.known self.new.source)
            (S.answered self.new.source) s p self.new.session self.new.inbox x
            (K.sent self.new.sink) is_offered l (L.state self.new.link) }
        ensures why { SaysNoMore result self.new.session
            (L.state self.old.link) (L.state self.new.link) }
        ensures others { (self.new.source ≡ self.old.source) × (self.new.sink ≡ self.old.sink)
            × (self.new.inbox ≡ self.old.inbox) × (self.new.is_served ≡ true)
            × (self.new.first ≡ self.old.first) }
    {
        say(&mut self.link, &mut self.session)
    }

    /// Takes the bytes that have come and lets the session read them. It answers whether more may come.
    pub(crate) fn hear(&mut self) -> Result<bool, Fault>
        requires served { self.old.is_served ≡ true }
        requires empty { self.old.inbox ≡ all_passed }
        ensures keeps { (a : S) (s : Setup) (p : Viewer)
            (x : List Input) (l : LinkState) (is_offered : Bool)
            → IsUnderWay S.looks S.cuts a self.old.source (S.known self.old.source)
            (S.answered self.old.source) s p self.old.session self.old.inbox
            x (K.sent self.old.sink) is_offered l (L.state self.old.link)
            → IsUnderWay S.looks S.cuts a self.new.source (S.known self.new.source)
            (S.answered self.new.source) s p self.new.session self.new.inbox x
            (K.sent self.new.sink) false l (L.state self.new.link) }
        ensures same { IsSameSession self.old.session self.new.session }
        ensures hears { Hears result self.old.session self.new.session self.new.inbox
            (L.state self.old.link) (L.state self.new.link) }
        ensures others { (self.new.source ≡ self.old.source) × (self.new.sink ≡ self.old.sink)
            × (self.new.is_served ≡ true) × (self.new.first ≡ self.old.first) }
    {
        hear(&mut self.link, &mut self.session, &mut self.inbox)
    }

    /// Sends on what the link keeps.
    pub(crate) fn flush(&mut self)
        ensures keeps { (a : S) (s : Setup) (p : Viewer)
            (x : List Input) (l : LinkState) (is_offered : Bool)
            → IsUnderWay S.looks S.cuts a self.old.source (S.known self.old.source)
            (S.answered self.old.source) s p self.old.session self.old.inbox
            x (K.sent self.old.sink) is_offered l (L.state self.old.link)
            → IsUnderWay S.looks S.cuts a self.new.source (S.known self.new.source)
            (S.answered self.new.source) s p self.new.session self.new.inbox x
            (K.sent self.new.sink) is_offered l (L.state self.new.link) }
        ensures link { L.state self.new.link ≡ L.state self.old.link }
        ensures others { (self.new.source ≡ self.old.source) × (self.new.sink ≡ self.old.sink)
            × (self.new.session ≡ self.old.session) × (self.new.inbox ≡ self.old.inbox)
            × (self.new.is_served ≡ self.old.is_served) × (self.new.first ≡ self.old.first) }
    {
        self.link.flush();
    }

    /// Serves the viewer no longer: what is left of its input goes to the sink from now on.
    pub(crate) fn end(&mut self)
        ensures link { L.state self.new.link ≡ L.state self.old.link }
        ensures others { (self.new.source ≡ self.old.source) × (self.new.sink ≡ self.old.sink)
            × (self.new.session ≡ self.old.session) × (self.new.inbox ≡ self.old.inbox)
            × (self.new.first ≡ self.old.first) }
        ensures served { self.new.is_served ≡ false }
    {
        self.source.want(Wanted::NOTHING);
        self.link.flush();
        self.is_served = false;
    }

    /// Passes the input that waits to the sink, and answers whether the sink is full.
    pub(crate) fn pass(&mut self) -> Result<bool, Fault>
        requires { self.old.is_served ≡ false }
        ensures passes { Passes K.may_refuse result self.old.inbox self.new.inbox
            (K.sent self.old.sink) (K.sent self.new.sink) }
        ensures others { (self.new.link ≡ self.old.link) × (self.new.source ≡ self.old.source)
            × (self.new.session ≡ self.old.session) × (self.new.is_served ≡ false)
            × (self.new.first ≡ self.old.first) }
    {
        self.inbox.pass(&mut self.sink)
    }

    /// Makes the next release the input that waits. It answers whether there is one.
    pub(crate) fn release(&mut self) -> bool
        requires served { self.old.is_served ≡ false }
        requires none { self.old.inbox.waiting ≡ None }
        ensures next { left_in self.old.session.held
            ≡ waiting_list self.new.inbox.waiting ++ left_in self.new.session.held }
        ensures none { result ≡ false
            → (self.new.inbox.waiting ≡ None) × (left_in self.new.session.held ≡ []) }
        ensures others { (self.new.link ≡ self.old.link) × (self.new.source ≡ self.old.source)
            × (self.new.sink ≡ self.old.sink) × (self.new.is_served ≡ false)
            × (self.new.first ≡ self.old.first) }
    {
        self.inbox.release(&mut self.session)
    }
}
