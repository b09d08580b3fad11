//! What a host is told: its link and all that is said over it, in the hands of three steps.

ghost use Rattle.std.specs.Prelude.{◌≡◌, ◌<◌, true, false, [], MatchResult, length};
ghost use Rattle.raster.specs.Size.{IsScreenSize};
ghost use Rattle.host_writer.specs.Dropping.{IsCounted};
ghost use Rattle.host_writer.specs.Saying.{begun, left_of};
ghost use Rattle.host_writer.specs.Moment.{Gives, IsOpen, IsTelling, LooksOnce, StopsSaying, Takes};
ghost use Rattle.host_writer.specs.Writing.{TellsSoFar, whole_request};

use crate::dropped::DropCount;
use crate::give::give;
use crate::input::take_input;
use crate::input_source::InputSource;
use crate::looking::look;
use crate::saying::{REQUEST_LEN, Saying, request_of};
use link::{Halt, Link};
use reflect_core::ScreenSource;
use roles::Strokes;
use std::marker::PhantomData;
use std::snapshot::Snapshot;

/// How a telling began. At run time it has no bytes: only clauses read it.
pub struct TellBeginning<L, S, K, D> {
    pub link: Snapshot<L>,
    pub source: Snapshot<S>,
    pub taker: Snapshot<K>,
    pub strokes: Snapshot<Strokes>,
    pub drops: Snapshot<D>,
}

impl<L, S, K, D> Drop for TellBeginning<L, S, K, D> {
    fn drop(self) {
        let TellBeginning {
            link: _,
            source: _,
            taker: _,
            strokes: _,
            drops: _,
        } = self;
    }
}

impl<L, S, K, D> TellBeginning<L, S, K, D> {
    /// The beginning of a telling with this link, this source, this taker, these strokes and these drops.
    pub fn of(link: &L, source: &S, taker: &K, strokes: &Strokes, drops: &D) -> Self
        ensures link { result.link.value ≡ link.now }
        ensures source { result.source.value ≡ source.now }
        ensures taker { result.taker.value ≡ taker.now }
        ensures strokes { result.strokes.value ≡ strokes.now }
        ensures drops { result.drops.value ≡ drops.now }
    {
        TellBeginning {
            link: Snapshot::of(link),
            source: Snapshot::of(source),
            taker: Snapshot::of(taker),
            strokes: Snapshot::of(strokes),
            drops: Snapshot::of(drops),
        }
    }
}

/// What it takes to tell one host: its link, the source that is looked at, what the inputs are taken from, the strokes
/// by which they are judged, the count of those that are dropped, and what is being said.
///
/// Only a telling's own steps use these while the telling has them. No step takes a handle, so each is proved to end
/// where the calls of the link, the source and the taker end, and `lawful` holds at its end. So `so_far` is true
/// whenever steps were called, in whatever order and for however long. A `T` is the key that takes a telling apart:
/// whoever is lent a telling can't make one.
pub struct Telling<'a, L: Link, S: ScreenSource, K: InputSource, D: DropCount, T: Drop> {
    link: L,
    source: S,
    taker: K,
    strokes: Strokes,
    drops: D,
    saying: Saying,
    // One incremental request of the whole screen, spelled once.
    request: [u8; REQUEST_LEN],
    // The greatest reply of a look, and 0 before the first.
    asked: u64,
    // How it all began. It is lent, so no step can put another beginning in its place.
    first: &'a TellBeginning<L, S, K, D>,
    key: PhantomData<T>,
    ghost whole: { request
        ≡ whole_request (S.width first.now.source.value) (S.height first.now.source.value) },
    ghost counted: { ∥ (IsCounted (K.taken first.now.taker.value) first.now.strokes.value
        (D.dropped first.now.drops.value)
        → IsCounted (K.taken taker) strokes (D.dropped drops)) ∥₁ },
    ghost lawful: { ∥ IsTelling S.looks first.now.source.value source
        (K.taken first.now.taker.value) (K.taken taker) first.now.strokes.value strokes
        (S.width first.now.source.value) (S.height first.now.source.value) asked saying
        (L.state first.now.link.value) (L.state link) ∥₁ },
}

impl<'a, L: Link, S: ScreenSource, K: InputSource, D: DropCount, T: Drop> Telling<
    'a,
    L,
    S,
    K,
    D,
    T,
> {
    /// A telling that begins: nothing was said yet.
    pub fn new(
        first: &'a TellBeginning<L, S, K, D>,
        link: L,
        source: S,
        taker: K,
        strokes: Strokes,
        drops: D,
    ) -> Self
        requires first { (first.now.link.value ≡ link) × (first.now.source.value ≡ source)
            × (first.now.taker.value ≡ taker) × (first.now.strokes.value ≡ strokes)
            × (first.now.drops.value ≡ drops) }
        requires screen { IsScreenSize (S.width source) (S.height source) }
        ensures parts { (result.link ≡ link) × (result.source ≡ source) × (result.taker ≡ taker)
            × (result.strokes ≡ strokes) × (result.drops ≡ drops) }
        ensures begins { (result.saying ≡ begun []) × (result.asked ≡ 0)
            × (result.request ≡ whole_request (S.width source) (S.height source)) }
        ensures first { result.first ≡ first.entry }
    {
        let (width, height) = source.size();
        Telling {
            link,
            source,
            taker,
            strokes,
            drops,
            saying: Saying::nothing(),
            request: request_of(width, height),
            asked: 0,
            first,
            key: PhantomData,
        }
    }

    /// What the telling had, as it is left.
    pub fn into_parts(self, _key: T) -> (L, S, K, Strokes, D)
        ensures { (result.0 ≡ self.entry.link) × (result.1 ≡ self.entry.source)
            × (result.2 ≡ self.entry.taker) × (result.3 ≡ self.entry.strokes)
            × (result.4 ≡ self.entry.drops) }
    {
        let Telling {
            link,
            source,
            taker,
            strokes,
            drops,
            saying: _,
            request: _,
            asked: _,
            first: _,
            key: _,
        } = self;
        (link, source, taker, strokes, drops)
    }

    /// It does nothing. Its clauses say what is true of the telling at every moment.
    pub fn so_far(&self)
        ensures tells { ∥ TellsSoFar S.looks self.now.first.now.source.value self.now.source
            (K.taken self.now.first.now.taker.value) (K.taken self.now.taker)
            self.now.first.now.strokes.value self.now.strokes
            (S.width self.now.first.now.source.value) (S.height self.now.first.now.source.value)
            (L.state self.now.first.now.link.value) (L.state self.now.link) ∥₁ }
        ensures counted { ∥ (IsCounted (K.taken self.now.first.now.taker.value)
            self.now.first.now.strokes.value (D.dropped self.now.first.now.drops.value)
            → IsCounted (K.taken self.now.taker) self.now.strokes (D.dropped self.now.drops)) ∥₁ }
    {}

    /// Whether bytes are left to give of what is said.
    pub(crate) fn has_left(&self) -> bool
        ensures left { result ≡ true → 0 < length (left_of self.now.saying) }
        ensures none { result ≡ false → left_of self.now.saying ≡ [] }
    {
        !self.saying.front().is_empty()
    }

    /// Takes the next input, once all that was said is given, and answers whether there was one. Where the input
    /// passes, its spelling is begun.
    pub(crate) fn take_input(&mut self) -> bool
        requires { left_of self.old.saying ≡ [] }
        ensures relay { K.relay self.new.taker ≡ K.relay self.old.taker }
        ensures places { length self.new.strokes.counts ≡ length self.old.strokes.counts }
        ensures counted { IsCounted (K.taken self.old.taker) self.old.strokes
            (D.dropped self.old.drops)
            → IsCounted (K.taken self.new.taker) self.new.strokes (D.dropped self.new.drops) }
        ensures takes { Takes result (K.taken self.old.taker) (K.taken self.new.taker)
            self.old.strokes self.new.strokes self.old.saying self.new.saying }
        ensures others { (self.new.link ≡ self.old.link) × (self.new.source ≡ self.old.source)
            × (self.new.request ≡ self.old.request) × (self.new.asked ≡ self.old.asked)
            × (self.new.first ≡ self.old.first) }
    {
        take_input(
            &mut self.taker,
            &mut self.strokes,
            &mut self.drops,
            &mut self.saying,
        )
    }

    /// Looks at the source, where all that was said is given. Where the reply has risen the request is begun. It
    /// answers whether that is so.
    pub(crate) fn look(&mut self) -> bool
        requires { left_of self.old.saying ≡ [] }
        ensures looks { LooksOnce S.looks self.old.request self.old.source self.new.source
            self.old.asked self.new.asked self.new.saying }
        ensures others { (self.new.link ≡ self.old.link) × (self.new.taker ≡ self.old.taker)
            × (self.new.strokes ≡ self.old.strokes) × (self.new.drops ≡ self.old.drops)
            × (self.new.request ≡ self.old.request) × (self.new.first ≡ self.old.first) }
    {
        look(
            &mut self.source,
            &mut self.asked,
            &self.request,
            &mut self.saying,
        )
    }

    /// Gives the link the bytes that are left, as many as it takes now. It answers whether the link took any, or why
    /// nothing more can be given over it.
    pub(crate) fn give(&mut self) -> Result<bool, Halt>
        requires { 0 < length (left_of self.old.saying) }
        ensures gives { Gives self.old.saying self.new.saying (L.state self.old.link)
            (L.state self.new.link) }
        ensures stops { MatchResult result
            (λ _. IsOpen (L.state self.old.link) (L.state self.new.link))
            (λ halt.
            StopsSaying ⊥ halt self.new.saying (L.state self.old.link) (L.state self.new.link)) }
        ensures others { (self.new.source ≡ self.old.source) × (self.new.taker ≡ self.old.taker)
            × (self.new.strokes ≡ self.old.strokes) × (self.new.drops ≡ self.old.drops)
            × (self.new.request ≡ self.old.request) × (self.new.asked ≡ self.old.asked)
            × (self.new.first ≡ self.old.first) }
    {
        give(&mut self.link, &mut self.saying)
    }
}
