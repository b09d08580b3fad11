//! The teller, which tells one host after another: no host is told now, or one is. It owns all that it could do harm
//! with, and its steps take no handle.

ghost use Rattle.std.specs.Prelude.{◌≡◌, ℕ, ⊤, List, [], ◌∷◌, ◌++◌};
ghost use Rattle.raster.specs.Size.{IsScreenSize};
ghost use Rattle.roles.specs.Strokes.{StrokesStand};
ghost use Rattle.link.specs.Links.{LinkState};
ghost use Rattle.run_traits.specs.Unused.{unused};
ghost use Rattle.host_writer.specs.Dropping.{IsCounted};
ghost use Rattle.host_writer.specs.Saying.{begun};
ghost use Rattle.host_writer.specs.Writing.{Tells, whole_request};
ghost use Rattle.reflector.specs.Tellings.{AreToldInTurn, HasTold, IsTelling, desk};
ghost use Rattle.run_traits.specs.LinkTrails.{links_in};

use crate::handover_taker::CameLink;
use fault::Fault;
use host_writer::{DropCount, InputSource, TellBeginning, Telling};
use link::Link;
use reflect_core::ScreenSource;
use roles::Strokes;
use run_traits::LinkTrail;
use std::marker::PhantomData;
use std::snapshot::Snapshot;

/// How a teller began. At run time it has no bytes: only clauses read it.
pub struct TellerBeginning<S, K, D> {
    pub source: Snapshot<S>,
    pub taker: Snapshot<K>,
    pub strokes: Snapshot<Strokes>,
    pub drops: Snapshot<D>,
}

impl<S, K, D> Drop for TellerBeginning<S, K, D> {
    fn drop(self) {
        let TellerBeginning {
            source: _,
            taker: _,
            strokes: _,
            drops: _,
        } = self;
    }
}

impl<S, K, D> TellerBeginning<S, K, D> {
    /// The beginning of a teller with these.
    pub fn of(source: &S, taker: &K, strokes: &Strokes, drops: &D) -> Self
        ensures source { result.source.value ≡ source.now }
        ensures taker { result.taker.value ≡ taker.now }
        ensures strokes { result.strokes.value ≡ strokes.now }
        ensures drops { result.drops.value ≡ drops.now }
    {
        TellerBeginning {
            source: Snapshot::of(source),
            taker: Snapshot::of(taker),
            strokes: Snapshot::of(strokes),
            drops: Snapshot::of(drops),
        }
    }
}

/// What opens the link of a host, and takes a telling apart. Only a teller has one.
#[derive(Drop)]
pub struct TellerKey {
    only_here: (),
}

/// A teller between two hosts: the source of the looks, what inputs are taken from, the strokes by which they are
/// judged, the count of those that are dropped, and the links over which hosts were told.
///
/// Only a teller's own steps use these while the teller has them. No step takes a handle, so each is proved to end
/// where the calls of the source and the taker end, and `counted` and `lawful` hold at its end. A `T` is the key that
/// takes a teller apart: whoever is given a teller can't make one.
pub struct FreeTeller<'a, L: Link, S: ScreenSource, K: InputSource, D: DropCount, T: Drop> {
    source: S,
    taker: K,
    strokes: Strokes,
    drops: D,
    told_links: LinkTrail<L>,
    // How it all began. It is lent, so no step can put another beginning in its place.
    first: &'a TellerBeginning<S, K, D>,
    key: PhantomData<T>,
    ghost screen: { (s : S) → IsScreenSize (S.width s) (S.height s) },
    ghost counted: { ∥ (IsCounted (K.taken first.now.taker.value)
        first.now.strokes.value (D.dropped first.now.drops.value)
        → IsCounted (K.taken taker) strokes (D.dropped drops)) ∥₁ },
    ghost lawful: { ∥ IsTelling S.looks S.width S.height
        (desk [] first.now.source.value (K.taken first.now.taker.value) first.now.strokes.value)
        (desk (links_in L.state told_links) source (K.taken taker) strokes) ∥₁ },
}

/// A teller while a host is told. The host's telling has all the rest: its link, the source, the taker, the strokes and
/// the count.
pub struct BusyTeller<'a, 'b, L: Link, S: ScreenSource, K: InputSource, D: DropCount, T: Drop> {
    told_links: LinkTrail<L>,
    // How the telling began.
    began: &'b TellBeginning<L, S, K, D>,
    first: &'a TellerBeginning<S, K, D>,
    key: PhantomData<T>,
    ghost screen: { (s : S) → IsScreenSize (S.width s) (S.height s) },
    ghost fresh: { L.state began.now.link.value ≡ unused },
    ghost counted: { ∥ (IsCounted (K.taken first.now.taker.value)
        first.now.strokes.value (D.dropped first.now.drops.value)
        → IsCounted (K.taken began.now.taker.value) began.now.strokes.value
        (D.dropped began.now.drops.value)) ∥₁ },
    ghost lawful: { ∥ ((before : List LinkState)
        × (links_in L.state told_links ≡ before ++ unused ∷ [])
        × IsTelling S.looks S.width S.height
        (desk [] first.now.source.value (K.taken first.now.taker.value) first.now.strokes.value)
        (desk before began.now.source.value (K.taken began.now.taker.value)
        began.now.strokes.value)) ∥₁ },
}

impl<'a, L: Link, S: ScreenSource, K: InputSource, D: DropCount, T: Drop> FreeTeller<
    'a,
    L,
    S,
    K,
    D,
    T,
> {
    /// A teller that begins: no host was told yet.
    pub fn new(
        first: &'a TellerBeginning<S, K, D>,
        source: S,
        taker: K,
        strokes: Strokes,
        drops: D,
    ) -> Self
        requires first { (first.now.source.value ≡ source) × (first.now.taker.value ≡ taker)
            × (first.now.strokes.value ≡ strokes) × (first.now.drops.value ≡ drops) }
        requires screen { (s : S) → IsScreenSize (S.width s) (S.height s) }
        ensures parts { (result.source ≡ source) × (result.taker ≡ taker)
            × (result.strokes ≡ strokes) × (result.drops ≡ drops) }
        ensures none { links_in L.state result.told_links ≡ [] }
        ensures first { result.first ≡ first.entry }
    {
        FreeTeller {
            source,
            taker,
            strokes,
            drops,
            told_links: LinkTrail::new(),
            first,
            key: PhantomData,
        }
    }

    /// It does nothing. Its clauses say, at every moment between two hosts, what the hosts were told and over which
    /// links, and that every dropped input is counted.
    ///
    /// In plain words (`in_turn`), where nothing was taken at first: since its link was made, each host so far was
    /// given a beginning of what is said to it, and nothing else. What is said is the spelling of each input that was
    /// taken for it and passes, each once and in order, and requests.
    pub fn so_far(&self)
        ensures told { ∥ HasTold S.looks S.width S.height (desk [] self.now.first.now.source.value
            (K.taken self.now.first.now.taker.value) self.now.first.now.strokes.value)
            (links_in L.state self.now.told_links) (K.taken self.now.taker) self.now.strokes ∥₁ }
        ensures in_turn { ∥ ((w h : ℕ) → ((s : S) → (S.width s ≡ w) × (S.height s ≡ h))
            → K.taken self.now.first.now.taker.value ≡ []
            → StrokesStand self.now.first.now.strokes.value []
            → AreToldInTurn w h [] (links_in L.state self.now.told_links)
            (K.taken self.now.taker)) ∥₁ }
        ensures counted { ∥ (IsCounted (K.taken self.now.first.now.taker.value)
            self.now.first.now.strokes.value (D.dropped self.now.first.now.drops.value)
            → IsCounted (K.taken self.now.taker) self.now.strokes (D.dropped self.now.drops)) ∥₁ }
    {}

    /// How telling the next host begins, over the link that came.
    pub fn beginning(&self, came: &CameLink<L>) -> TellBeginning<L, S, K, D>
        ensures fresh { L.state result.link.value ≡ unused }
        ensures parts { (result.link.value ≡ came.now.link)
            × (result.source.value ≡ self.now.source) × (result.taker.value ≡ self.now.taker)
            × (result.strokes.value ≡ self.now.strokes) × (result.drops.value ≡ self.now.drops) }
    {
        came.beginning(&self.source, &self.taker, &self.strokes, &self.drops)
    }

    /// Notes the link that came, and lets the telling of its host begin.
    pub fn meet<'b>(
        self,
        came: CameLink<L>,
        began: &'b TellBeginning<L, S, K, D>,
    ) -> (
        BusyTeller<'a, 'b, L, S, K, D, T>,
        Telling<'b, L, S, K, D, TellerKey>,
    )
        requires { (began.now.link.value ≡ came.link) × (began.now.source.value ≡ self.source)
            × (began.now.taker.value ≡ self.taker) × (began.now.strokes.value ≡ self.strokes)
            × (began.now.drops.value ≡ self.drops) }
        ensures came { links_in L.state result.0.told_links
            ≡ links_in L.state self.entry.told_links ++ unused ∷ [] }
        ensures lent { (result.0.began ≡ began.entry) × (result.0.first ≡ self.entry.first) }
        ensures telling { (L.state result.1.link ≡ unused) × (result.1.source ≡ self.entry.source)
            × (result.1.taker ≡ self.entry.taker) × (result.1.strokes ≡ self.entry.strokes)
            × (result.1.drops ≡ self.entry.drops) }
        ensures begins { (result.1.saying ≡ begun []) × (result.1.asked ≡ 0)
            × (result.1.request
            ≡ whole_request (S.width self.entry.source) (S.height self.entry.source)) }
        ensures first { result.1.first ≡ began.entry }
    {
        let FreeTeller {
            source,
            taker,
            strokes,
            drops,
            mut told_links,
            first,
            key,
        } = self;
        let link = came.open(TellerKey { only_here: () });
        told_links.note(&link);
        let telling = Telling::new(began, link, source, taker, strokes, drops);
        let busy = BusyTeller {
            told_links,
            began,
            first,
            key,
        };
        (busy, telling)
    }

    /// What the teller had, as it is left.
    pub fn into_parts(self, _key: T) -> (S, K, Strokes, D, LinkTrail<L>)
        ensures { (result.0 ≡ self.entry.source) × (result.1 ≡ self.entry.taker)
            × (result.2 ≡ self.entry.strokes) × (result.3 ≡ self.entry.drops)
            × (result.4 ≡ self.entry.told_links) }
    {
        let FreeTeller {
            source,
            taker,
            strokes,
            drops,
            told_links,
            first: _,
            key: _,
        } = self;
        (source, taker, strokes, drops, told_links)
    }
}

impl<'a, 'b, L: Link, S: ScreenSource, K: InputSource, D: DropCount, T: Drop> BusyTeller<
    'a,
    'b,
    L,
    S,
    K,
    D,
    T,
> {
    /// It does nothing. Its clauses say, at every moment while a host is told, what all hosts before this one were
    /// told; the link of this one is the last that was noted. Of this host `host_writer::Telling::so_far` speaks.
    pub fn so_far(&self)
        ensures fresh { L.state self.now.began.now.link.value ≡ unused }
        ensures told { ∥ ((before : List LinkState)
            × (links_in L.state self.now.told_links ≡ before ++ unused ∷ [])
            × HasTold S.looks S.width S.height (desk [] self.now.first.now.source.value
            (K.taken self.now.first.now.taker.value) self.now.first.now.strokes.value)
            before (K.taken self.now.began.now.taker.value) self.now.began.now.strokes.value) ∥₁ }
        ensures counted { ∥ (IsCounted (K.taken self.now.first.now.taker.value)
            self.now.first.now.strokes.value (D.dropped self.now.first.now.drops.value)
            → IsCounted (K.taken self.now.began.now.taker.value) self.now.began.now.strokes.value
            (D.dropped self.now.began.now.drops.value)) ∥₁ }
    {}

    /// It does nothing. Its clauses speak, in plain words, of the teller and of the telling of its host together, at
    /// every moment. Since its link was made, each host so far, and this one, was given a beginning of what is said to
    /// it, and nothing else: the spelling of each input that was taken for it and passes, each once and in order, and
    /// requests. And every dropped input is counted.
    pub fn all_so_far(&self, telling: &Telling<'b, L, S, K, D, TellerKey>)
        requires { telling.now.first ≡ self.now.began }
        ensures in_turn { ∥ ((w h : ℕ) → ((s : S) → (S.width s ≡ w) × (S.height s ≡ h))
            → K.taken self.now.first.now.taker.value ≡ []
            → StrokesStand self.now.first.now.strokes.value []
            → (before : List LinkState)
            × (links_in L.state self.now.told_links ≡ before ++ unused ∷ [])
            × AreToldInTurn w h [] (before ++ unused ∷ L.state telling.now.link ∷ [])
            (K.taken telling.now.taker)) ∥₁ }
        ensures counted { ∥ (IsCounted (K.taken self.now.first.now.taker.value)
            self.now.first.now.strokes.value (D.dropped self.now.first.now.drops.value)
            → IsCounted (K.taken telling.now.taker) telling.now.strokes
            (D.dropped telling.now.drops)) ∥₁ }
    {
        telling.so_far();
    }

    /// Ends the telling of the host, and notes the host's link once more, as it was left. Nothing is given over it
    /// after that.
    pub fn close(
        self,
        telling: Telling<'b, L, S, K, D, TellerKey>,
        why: Result<(), Fault>,
    ) -> FreeTeller<'a, L, S, K, D, T>
        requires first { telling.first ≡ self.began }
        requires writes { Tells S.looks ⊤ self.began.now.source.value telling.source
            (K.taken self.began.now.taker.value) (K.taken telling.taker)
            self.began.now.strokes.value telling.strokes
            (S.width self.began.now.source.value) (S.height self.began.now.source.value) why
            (L.state self.began.now.link.value) (L.state telling.link) }
        ensures left { links_in L.state result.told_links
            ≡ links_in L.state self.entry.told_links ++ L.state telling.entry.link ∷ [] }
        ensures parts { (result.source ≡ telling.entry.source)
            × (result.taker ≡ telling.entry.taker) × (result.strokes ≡ telling.entry.strokes)
            × (result.drops ≡ telling.entry.drops) }
        ensures first { result.first ≡ self.entry.first }
    {
        let BusyTeller {
            mut told_links,
            began: _,
            first,
            key,
        } = self;
        telling.so_far();
        // Only the clauses read how it ended.
        let _ = why;
        let (link, source, taker, strokes, drops) = telling.into_parts(TellerKey { only_here: () });
        told_links.note(&link);
        drop(link);
        FreeTeller {
            source,
            taker,
            strokes,
            drops,
            told_links,
            first,
            key,
        }
    }
}
