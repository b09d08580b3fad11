//! Serves one viewer until it leaves.

ghost use Rattle.std.specs.Prelude.{◌≡◌, Bool, None, true};
ghost use Rattle.reflect_core.specs.Sequential.{Begins};
ghost use Rattle.roles.specs.declared.role.Role as roles;
ghost use Rattle.viewer_session.specs.Session.{IsSameSession, Stands};
ghost use Rattle.viewer_session.specs.Viewer.{Setup, new_viewer};
ghost use Rattle.viewer_server.specs.Steps.{GoesOn, HasServed, Hears, Offers, Says, SaysNoMore, WaitsIfLeft, all_passed};

use crate::breaks::Break;
use crate::inbox::Inbox;
use crate::progress::Progress;
use crate::visit::Visit;
use fault::Fault;
use link::{Gave, Link, Rest, StopFlag, Took};
use reflect_core::ScreenSource;
use roles::InputSink;
use std::sync::Wait;
use viewer_session::Session;

/// Has the session take a turn, unless bytes are unsent. Then it tells `progress` how far the viewer is, and the source
/// what to lend for the viewer. It answers whether no bytes were unsent.
pub(crate) fn offer<S: ScreenSource, P: Progress>(
    source: &mut S,
    session: &mut Session,
    progress: &P,
) -> Result<bool, Fault>
    requires { (S.width source.old ≡ session.old.width)
        × (S.height source.old ≡ session.old.height) }
    ensures source { (S.width source.new ≡ S.width source.old)
        × (S.height source.new ≡ S.height source.old) }
    ensures session { (session.new.width ≡ session.old.width)
        × (session.new.height ≡ session.old.height) }
    ensures grows { Begins (S.known source.old) (S.known source.new) }
    ensures offers { Offers S.looks S.cuts S.may_end source.old source.new session.old session.new
        (S.known source.new) (S.answered source.old) (S.answered source.new) result }
{
    if !session.out().is_empty() {
        return Ok(false);
    }
    session.turn(source)?;
    progress.count(session.answers(), session.shown());
    source.want(session.wants());
    Ok(true)
}

/// Gives the link as many of the unsent bytes as it takes now.
pub(crate) fn say<L: Link>(link: &mut L, session: &mut Session) -> Result<(), Fault>
    ensures says { Says session.old session.new (L.state link.old) (L.state link.new) }
    ensures why { SaysNoMore result session.new (L.state link.old) (L.state link.new) }
{
    while !session.out().is_empty() {
        match link.give(session.out()) {
            Gave::Bytes(count) => session.sent(count),
            Gave::Nothing => return Ok(()),
            Gave::End => return Err(Fault::LinkEnded),
            Gave::Failed => return Err(Fault::LinkFailed),
        }
    }
    Ok(())
}

/// Passes on an input that waits, and reads the bytes after it. It answers whether the sink is full.
pub(crate) fn relay<K: InputSink>(
    sink: &mut K,
    session: &mut Session,
    inbox: &mut Inbox,
) -> Result<bool, Break>
    ensures same { IsSameSession session.old session.new }
    ensures goes_on { GoesOn K.may_refuse result session.old session.new inbox.old inbox.new
        (K.sent sink.old) (K.sent sink.new) }
    ensures left { WaitsIfLeft inbox.new }
{
    let is_full = match inbox.pass(sink) {
        Ok(is_full) => is_full,
        Err(fault) => return Err(Break::Refused(fault)),
    };
    if !is_full && !inbox.unread().is_empty() {
        inbox.read(session)?;
    }
    Ok(is_full)
}

/// Takes the bytes that have come and lets the session read them. It answers whether more may come: false where the
/// link ended between two messages with nothing unsent.
pub(crate) fn hear<L: Link>(
    link: &mut L,
    session: &mut Session,
    inbox: &mut Inbox,
) -> Result<bool, Fault>
    requires { inbox.old ≡ all_passed }
    ensures same { IsSameSession session.old session.new }
    ensures hears { Hears result session.old session.new inbox.new
        (L.state link.old) (L.state link.new) }
{
    match inbox.fill(link) {
        Took::Bytes(_) => {
            inbox.read(session)?;
            Ok(true)
        }
        Took::Nothing => Ok(true),
        Took::End => {
            if session.out().is_empty() && session.between() {
                Ok(false)
            } else {
                Err(Fault::LinkEnded)
            }
        }
        Took::Failed => Err(Fault::LinkFailed),
    }
}

/// Serves the viewer until the link ends or the flag is set. Each round passes on its input that has come, has a turn
/// where nothing is unsent, gives the link what the session sends, and takes the viewer's bytes. Where the sink is full
/// it rests instead of taking bytes, so that updates go on. Bytes are taken only after a turn, or while others are
/// unsent.
pub(crate) fn serve<L, S, K, T, F, Z, P, R>(
    rt: &R,
    visit: &mut Visit<'_, L, S, K, T>,
    stop: &F,
    rest: &Z,
    progress: &P,
) -> Result<(), Break>
where
    L: Link,
    S: ScreenSource,
    K: InputSink,
    T: Drop,
    F: StopFlag,
    Z: Rest,
    P: Progress,
    R: Wait,
    requires served { visit.old.is_served ≡ true }
    requires uncut { visit.old.session.asked.last ≡ None }
    requires empty { visit.old.inbox ≡ all_passed }
    ensures first { visit.new.first ≡ visit.old.first }
    ensures grows { Begins (S.known visit.old.source) (S.known visit.new.source) }
    ensures serves { (s : Setup) (role : roles.Role) (greet : Bool)
        → Stands s visit.old.session (new_viewer role greet)
        → HasServed S.looks S.cuts S.may_end (F.was_set stop.now) K.may_refuse
        visit.old.source visit.new.source (S.known visit.new.source) s (new_viewer role greet)
        visit.new.session visit.new.inbox (K.sent visit.old.sink) (K.sent visit.new.sink) result
        (L.state visit.old.link) (L.state visit.new.link) }
{
    for _ in rt.forever() {
        if stop.is_set() {
            return Ok(());
        }
        let is_full = visit.relay()?;
        if !is_full && visit.waits() {
            continue;
        }
        let is_offered = visit.offer(progress)?;
        visit.say()?;
        if is_full {
            visit.flush();
            rest.rest(rt);
        } else if is_offered || visit.has_unsent() {
            let goes_on = visit.hear()?;
            if !goes_on {
                return Ok(());
            }
        }
    }
    unreachable!()
}
