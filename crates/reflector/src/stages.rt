//! The stages of a place: it is free, a viewer was met, or a viewer is there. A stage owns all that a place could do
//! harm with, and its steps take no handle.

ghost use Rattle.std.specs.Prelude.{◌≡◌, None, true, false, IfOk, IfErr};
ghost use Rattle.fault.specs.declared.kinds.Fault.TheVariants.{Memory};
ghost use Rattle.run_traits.specs.Unused.{unused};
ghost use Rattle.viewer_server.specs.Steps.{all_passed};
ghost use Rattle.viewer_session.specs.Session.{Stands};
ghost use Rattle.viewer_session.specs.Viewer.{new_viewer};
ghost use Rattle.reflector.specs.Visits.{HasVisits, IsReceived, IsVisiting, at, setup_of};

use crate::counted::Counted;
use crate::session_maker::SessionMaker;
use fault::Fault;
use link::StopFlag;
use reflect_core::ScreenSource;
use roles::InputSink;
use run_traits::{Door, LeftLink};
use std::marker::PhantomData;
use std::snapshot::Snapshot;
use viewer_server::{Beginning, Visit};
use viewer_session::Session;

/// How a place began. At run time it has no bytes: only clauses read it.
pub struct PlaceBeginning<D, S, K> {
    pub door: Snapshot<D>,
    pub source: Snapshot<S>,
    pub sink: Snapshot<K>,
}

impl<D, S, K> Drop for PlaceBeginning<D, S, K> {
    fn drop(self) {
        let PlaceBeginning {
            door: _,
            source: _,
            sink: _,
        } = self;
    }
}

impl<D, S, K> PlaceBeginning<D, S, K> {
    /// The beginning of a place with these.
    pub fn of(door: &D, source: &S, sink: &K) -> Self
        ensures door { result.door.value ≡ door.now }
        ensures source { result.source.value ≡ source.now }
        ensures sink { result.sink.value ≡ sink.now }
    {
        PlaceBeginning {
            door: Snapshot::of(door),
            source: Snapshot::of(source),
            sink: Snapshot::of(sink),
        }
    }
}

/// What takes a visit apart. Only a place has one, while a viewer is there.
#[derive(Drop)]
pub struct PlaceKey {
    only_here: (),
}

/// What a place is lent: what makes the sessions of its viewers, the flag that ends it, and how it all began. It stays
/// the same from stage to stage. A `T` is the key that takes a place apart.
struct Lent<'a, D, S, K, F: StopFlag, T: Drop> {
    maker: &'a SessionMaker,
    stop: &'a F,
    // No step can put another beginning in its place.
    first: &'a PlaceBeginning<D, S, K>,
    key: PhantomData<T>,
}

/// A place without a viewer: its door, the source of its screens and the sink of its viewers' input.
///
/// Only a place's own steps use these while the place has them. No step takes a handle, so each is proved to end where
/// the calls of the door, the source and the sink end, and `lawful` holds at its end. A `T` is the key that takes a
/// place apart: whoever is given a place can't make one.
pub struct FreePlace<'a, D: Door, S: ScreenSource, K: InputSink, F: StopFlag, T: Drop> {
    lent: Lent<'a, D, S, K, F, T>,
    door: D,
    source: S,
    sink: K,
    ghost screen: { (s : S)
        → (S.width s ≡ lent.maker.now.width) × (S.height s ≡ lent.maker.now.height) },
    ghost lawful: { ∥ IsVisiting D.lets_in D.sees_off
        (λ source_old source_new sent_old sent_new why left.
        IsReceived S.looks S.cuts S.may_end (F.was_set lent.stop.now) K.may_refuse S.known
        (setup_of lent.maker.now.width lent.maker.now.height lent.maker.now.name.items
        lent.maker.now.form lent.maker.now.host) lent.maker.now.role
        source_old source_new sent_old sent_new why left)
        (at lent.first.now.door.value lent.first.now.source.value
        (K.sent lent.first.now.sink.value)) (at door source (K.sent sink)) ∥₁ },
}

/// A place whose door let a viewer in, with the session that was made for it. Nothing was done for the viewer yet.
pub struct MetPlace<'a, D: Door, S: ScreenSource, K: InputSink, F: StopFlag, T: Drop> {
    lent: Lent<'a, D, S, K, F, T>,
    door: D,
    source: S,
    sink: K,
    link: D::Viewer,
    session: Session,
    ghost screen: { (s : S)
        → (S.width s ≡ lent.maker.now.width) × (S.height s ≡ lent.maker.now.height) },
    ghost fresh: { D.Viewer.state link ≡ unused },
    ghost size: { (session.width ≡ lent.maker.now.width)
        × (session.height ≡ lent.maker.now.height) },
    ghost uncut: { session.asked.last ≡ None },
    ghost stands: { ∥ Stands (setup_of lent.maker.now.width lent.maker.now.height
        lent.maker.now.name.items lent.maker.now.form lent.maker.now.host)
        session (new_viewer lent.maker.now.role true) ∥₁ },
    ghost lawful: { ∥ ((before : D)
        × IsVisiting D.lets_in D.sees_off (λ source_old source_new sent_old sent_new why left.
        IsReceived S.looks S.cuts S.may_end (F.was_set lent.stop.now) K.may_refuse S.known
        (setup_of lent.maker.now.width lent.maker.now.height lent.maker.now.name.items
        lent.maker.now.form lent.maker.now.host) lent.maker.now.role
        source_old source_new sent_old sent_new why left)
        (at lent.first.now.door.value lent.first.now.source.value
        (K.sent lent.first.now.sink.value)) (at before source (K.sent sink))
        × D.lets_in before true door) ∥₁ },
}

/// A place whose viewer is there. The viewer's visit has all the rest: its link, the source and the sink.
pub struct BusyPlace<'a, 'b, D: Door, S: ScreenSource, K: InputSink, F: StopFlag, T: Drop> {
    lent: Lent<'a, D, S, K, F, T>,
    door: D,
    // How the visit began.
    began: &'b Beginning<D::Viewer, S, K>,
    visit_key: PlaceKey,
    ghost screen: { (s : S)
        → (S.width s ≡ lent.maker.now.width) × (S.height s ≡ lent.maker.now.height) },
    ghost fresh: { D.Viewer.state began.now.link.value ≡ unused },
    ghost stands: { ∥ Stands (setup_of lent.maker.now.width lent.maker.now.height
        lent.maker.now.name.items lent.maker.now.form lent.maker.now.host)
        began.now.session.value (new_viewer lent.maker.now.role true) ∥₁ },
    ghost lawful: { ∥ ((before : D)
        × IsVisiting D.lets_in D.sees_off (λ source_old source_new sent_old sent_new why left.
        IsReceived S.looks S.cuts S.may_end (F.was_set lent.stop.now) K.may_refuse S.known
        (setup_of lent.maker.now.width lent.maker.now.height lent.maker.now.name.items
        lent.maker.now.form lent.maker.now.host) lent.maker.now.role
        source_old source_new sent_old sent_new why left)
        (at lent.first.now.door.value lent.first.now.source.value
        (K.sent lent.first.now.sink.value))
        (at before began.now.source.value (K.sent began.now.sink.value))
        × D.lets_in before true door) ∥₁ },
}

/// A place that is left: no viewer comes any more.
pub struct LeftPlace<'a, D: Door, S: ScreenSource, K: InputSink, F: StopFlag, T: Drop> {
    lent: Lent<'a, D, S, K, F, T>,
    door: D,
    source: S,
    sink: K,
    ghost lawful: { ∥ HasVisits D.lets_in D.sees_off
        (λ source_old source_new sent_old sent_new why left.
        IsReceived S.looks S.cuts S.may_end (F.was_set lent.stop.now) K.may_refuse S.known
        (setup_of lent.maker.now.width lent.maker.now.height lent.maker.now.name.items
        lent.maker.now.form lent.maker.now.host) lent.maker.now.role
        source_old source_new sent_old sent_new why left)
        (at lent.first.now.door.value lent.first.now.source.value
        (K.sent lent.first.now.sink.value)) (at door source (K.sent sink)) ∥₁ },
}

impl<'a, D: Door, S: ScreenSource, K: InputSink, F: StopFlag, T: Drop> FreePlace<
    'a,
    D,
    S,
    K,
    F,
    T,
> {
    /// A place that begins, for a screen of the maker's size.
    pub fn new(
        first: &'a PlaceBeginning<D, S, K>,
        maker: &'a SessionMaker,
        stop: &'a F,
        door: D,
        source: S,
        sink: K,
    ) -> Self
        requires first { (first.now.door.value ≡ door) × (first.now.source.value ≡ source)
            × (first.now.sink.value ≡ sink) }
        requires screen { (s : S)
            → (S.width s ≡ maker.now.width) × (S.height s ≡ maker.now.height) }
        ensures parts { (result.door ≡ door) × (result.source ≡ source) × (result.sink ≡ sink) }
        ensures lent { (result.lent.first ≡ first.entry) × (result.lent.maker ≡ maker.entry)
            × (result.lent.stop ≡ stop.entry) }
    {
        let lent = Lent {
            maker,
            stop,
            first,
            key: PhantomData,
        };
        FreePlace {
            lent,
            door,
            source,
            sink,
        }
    }

    /// It does nothing. Its clause says, at every moment between two viewers, what the place's visits were.
    pub fn so_far(&self)
        ensures { ∥ IsVisiting D.lets_in D.sees_off
            (λ source_old source_new sent_old sent_new why left.
            IsReceived S.looks S.cuts S.may_end (F.was_set self.now.lent.stop.now)
            K.may_refuse S.known (setup_of self.now.lent.maker.now.width
            self.now.lent.maker.now.height self.now.lent.maker.now.name.items
            self.now.lent.maker.now.form self.now.lent.maker.now.host)
            self.now.lent.maker.now.role source_old source_new sent_old sent_new why left)
            (at self.now.lent.first.now.door.value self.now.lent.first.now.source.value
            (K.sent self.now.lent.first.now.sink.value))
            (at self.now.door self.now.source (K.sent self.now.sink)) ∥₁ }
    {}

    /// The flag that ends the place.
    pub fn stop(&self) -> &'a F
        ensures { result ≡ self.now.lent.stop }
    {
        self.lent.stop
    }

    /// Asks the door for the next viewer. It answers the place that is left, where no more come. Where there is no
    /// memory for a viewer, that viewer is let go, and the place is free again.
    pub fn meet(
        self,
    ) -> Result<Result<MetPlace<'a, D, S, K, F, T>, Self>, LeftPlace<'a, D, S, K, F, T>>
        ensures met { IfOk result (λ met. IfOk met (λ place.
            D.lets_in self.entry.door true place.door × (place.source ≡ self.entry.source)
            × (place.sink ≡ self.entry.sink) × (place.lent ≡ self.entry.lent))) }
        ensures session { IfOk result (λ met. IfOk met (λ place.
            Stands (setup_of self.entry.lent.maker.now.width self.entry.lent.maker.now.height
            self.entry.lent.maker.now.name.items self.entry.lent.maker.now.form
            self.entry.lent.maker.now.host)
            place.session (new_viewer self.entry.lent.maker.now.role true))) }
        ensures let_go { IfOk result (λ met. IfErr met (λ place.
            (door : D) × D.lets_in self.entry.door true door
            × D.sees_off door unused (Err Memory) place.door × (place.source ≡ self.entry.source)
            × (place.sink ≡ self.entry.sink) × (place.lent ≡ self.entry.lent))) }
        ensures left { IfErr result (λ place.
            D.lets_in self.entry.door false place.door × (place.source ≡ self.entry.source)
            × (place.sink ≡ self.entry.sink) × (place.lent ≡ self.entry.lent)) }
    {
        let FreePlace {
            lent,
            mut door,
            source,
            sink,
        } = self;
        let Some(link) = door.next() else {
            return Err(LeftPlace {
                lent,
                door,
                source,
                sink,
            });
        };
        match lent.maker.open() {
            Ok(session) => Ok(Ok(MetPlace {
                lent,
                door,
                source,
                sink,
                link,
                session,
            })),
            Err(fault) => {
                door.left(LeftLink::new(link), 0, Err(fault));
                Ok(Err(FreePlace {
                    lent,
                    door,
                    source,
                    sink,
                }))
            }
        }
    }

    /// Asks for no further viewer.
    pub fn leave(self) -> LeftPlace<'a, D, S, K, F, T>
        ensures { (result.door ≡ self.entry.door) × (result.source ≡ self.entry.source)
            × (result.sink ≡ self.entry.sink) × (result.lent ≡ self.entry.lent) }
    {
        let FreePlace {
            lent,
            door,
            source,
            sink,
        } = self;
        LeftPlace {
            lent,
            door,
            source,
            sink,
        }
    }
}

impl<'a, D: Door, S: ScreenSource, K: InputSink, F: StopFlag, T: Drop> MetPlace<'a, D, S, K, F, T> {
    /// The beginning of the viewer's visit.
    pub fn beginning(&self) -> Beginning<D::Viewer, S, K>
        ensures { (result.link.value ≡ self.now.link) × (result.source.value ≡ self.now.source)
            × (result.sink.value ≡ self.now.sink) × (result.session.value ≡ self.now.session) }
    {
        Beginning::of(&self.link, &self.source, &self.sink, &self.session)
    }

    /// Lets the viewer's visit begin.
    pub fn open<'b>(
        self,
        began: &'b Beginning<D::Viewer, S, K>,
    ) -> (
        BusyPlace<'a, 'b, D, S, K, F, T>,
        Visit<'b, D::Viewer, S, K, PlaceKey>,
    )
        requires { (began.now.link.value ≡ self.link) × (began.now.source.value ≡ self.source)
            × (began.now.sink.value ≡ self.sink) × (began.now.session.value ≡ self.session) }
        ensures place { (result.0.door ≡ self.entry.door) × (result.0.began ≡ began.entry)
            × (result.0.lent ≡ self.entry.lent) }
        ensures visit { (result.1.link ≡ self.entry.link) × (result.1.source ≡ self.entry.source)
            × (result.1.sink ≡ self.entry.sink) × (result.1.session ≡ self.entry.session) }
        ensures begins { (result.1.inbox ≡ all_passed) × (result.1.is_served ≡ true)
            × (result.1.session.asked.last ≡ None) }
    {
        let MetPlace {
            lent,
            door,
            source,
            sink,
            link,
            session,
        } = self;
        let visit = Visit::new(began, link, source, sink, session);
        let place = BusyPlace {
            lent,
            door,
            began,
            visit_key: PlaceKey { only_here: () },
        };
        (place, visit)
    }
}

impl<'a, 'b, D: Door, S: ScreenSource, K: InputSink, F: StopFlag, T: Drop> BusyPlace<
    'a,
    'b,
    D,
    S,
    K,
    F,
    T,
> {
    /// It does nothing. Its clauses say, at every moment while a viewer is there, what the place's visits were before
    /// this viewer's own, and that this viewer's session is of the place's role. Of this viewer's visit
    /// `viewer_server::Visit::so_far` speaks.
    pub fn so_far(&self)
        ensures role { ∥ Stands (setup_of self.now.lent.maker.now.width
            self.now.lent.maker.now.height self.now.lent.maker.now.name.items
            self.now.lent.maker.now.form self.now.lent.maker.now.host)
            self.now.began.now.session.value (new_viewer self.now.lent.maker.now.role true) ∥₁ }
        ensures visits { ∥ ((before : D)
            × IsVisiting D.lets_in D.sees_off (λ source_old source_new sent_old sent_new why left.
            IsReceived S.looks S.cuts S.may_end (F.was_set self.now.lent.stop.now)
            K.may_refuse S.known (setup_of self.now.lent.maker.now.width
            self.now.lent.maker.now.height self.now.lent.maker.now.name.items
            self.now.lent.maker.now.form self.now.lent.maker.now.host)
            self.now.lent.maker.now.role source_old source_new sent_old sent_new why left)
            (at self.now.lent.first.now.door.value self.now.lent.first.now.source.value
            (K.sent self.now.lent.first.now.sink.value))
            (at before self.now.began.now.source.value (K.sent self.now.began.now.sink.value))
            × D.lets_in before true self.now.door) ∥₁ }
    {}

    /// The flag that ends the place.
    pub fn stop(&self) -> &'a F
        ensures { result ≡ self.now.lent.stop }
    {
        self.lent.stop
    }

    /// What notes how far the viewer is.
    pub(crate) fn progress(&self) -> Counted<'_> {
        Counted {
            count: self.door.count(),
        }
    }

    /// Takes the viewer's visit, which ended with `why`, and has the door see the viewer off.
    pub fn close(
        self,
        visit: Visit<'b, D::Viewer, S, K, PlaceKey>,
        why: Result<(), Fault>,
    ) -> FreePlace<'a, D, S, K, F, T>
        requires { IsReceived S.looks S.cuts S.may_end (F.was_set self.lent.stop.now)
            K.may_refuse S.known (setup_of self.lent.maker.now.width self.lent.maker.now.height
            self.lent.maker.now.name.items self.lent.maker.now.form self.lent.maker.now.host)
            self.lent.maker.now.role self.began.now.source.value visit.source
            (K.sent self.began.now.sink.value) (K.sent visit.sink) why (D.Viewer.state visit.link) }
        ensures went { D.sees_off self.entry.door
            (D.Viewer.state visit.entry.link) why result.door }
        ensures parts { (result.source ≡ visit.entry.source) × (result.sink ≡ visit.entry.sink) }
        ensures lent { result.lent ≡ self.entry.lent }
    {
        let BusyPlace {
            lent,
            mut door,
            began: _,
            visit_key,
        } = self;
        let answers = visit.answers();
        let (link, source, sink, _) = visit.into_parts(visit_key);
        door.left(LeftLink::new(link), answers, why);
        FreePlace {
            lent,
            door,
            source,
            sink,
        }
    }
}

impl<'a, D: Door, S: ScreenSource, K: InputSink, F: StopFlag, T: Drop> LeftPlace<
    'a,
    D,
    S,
    K,
    F,
    T,
> {
    /// What the place had, as it is left.
    pub fn into_parts(self, _key: T) -> (D, S, K)
        ensures { (result.0 ≡ self.entry.door) × (result.1 ≡ self.entry.source)
            × (result.2 ≡ self.entry.sink) }
    {
        let LeftPlace {
            lent,
            door,
            source,
            sink,
        } = self;
        let Lent {
            maker: _,
            stop: _,
            first: _,
            key: _,
        } = lent;
        (door, source, sink)
    }
}
