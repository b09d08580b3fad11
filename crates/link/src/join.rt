//! Joining a host.

ghost use Rattle.std.specs.Prelude.{◌≡◌, ◌≤◌, ℕ, true, false, List, Option, IfOk, IfErr, MatchResult, OnOk, length};
ghost use Rattle.rfb_wire.specs.Handshake.{Joined};
ghost use Rattle.link.specs.Joins.{FailsAs, Joins, LinkFails, first_messages};
ghost use Rattle.link.specs.Links.{LinkState};
ghost use Rattle.link.specs.Moment.{IsHeard, IsTelling, IsUnheard};

use crate::joining::Joining;
use crate::link::Link;
use fault::Fault;
use rfb_wire::Joined;
use std::snapshot::Snapshot;
use std::sync::Wait;
use vnc_auth::Password;

/// A loop that calls a join's steps until the host is joined or a fault comes, as `join_on` does. Of what matters it is
/// lent the join alone, so it can call the join's steps, and nothing else.
pub trait JoinsOn<L: Link> {
    /// Joins on to the end.
    fn join_on(&self, joining: &mut Joining<'_, L>) -> Result<Joined, Fault>
        requires { (joining.old.is_heard ≡ false) × IsUnheard joining.old.hello }
        ensures joined { IfOk result (λ joined. Joins joining.old.hello.password
            (L.state joining.old.link.now) (L.state joining.new.link.now) joined) }
        ensures err { IfErr result (λ fault. FailsAs joining.old.hello.password fault
            (L.state joining.old.link.now) (L.state joining.new.link.now)) }
        ensures same { joining.new.link.ghost_name ≡ joining.old.link.ghost_name }
        ensures first { joining.new.first ≡ joining.old.first }
        ensures password { joining.new.hello.password ≡ joining.old.hello.password };
}

/// Hears the host's handshake to its end, and takes no byte further, while it gives the client's side.
fn hear_on<L: Link, R: Wait>(rt: &R, joining: &mut Joining<'_, L>) -> Result<Joined, Fault>
    requires { (joining.old.is_heard ≡ false) × IsUnheard joining.old.hello }
    ensures heard { IfOk result (λ joined. IsHeard (L.state joining.old.link.now)
        (L.state joining.new.link.now) joining.new.hello joined) }
    ensures size { IfOk result (λ joined. (joined.w ≤ 4096) × (joined.h ≤ 4096)) }
    ensures err { IfErr result (λ fault. FailsAs joining.old.hello.password fault
        (L.state joining.old.link.now) (L.state joining.new.link.now)) }
    ensures hears { joining.new.is_heard ≡ false }
    ensures same { joining.new.link.ghost_name ≡ joining.old.link.ghost_name }
    ensures first { joining.new.first ≡ joining.old.first }
    ensures password { joining.new.hello.password ≡ joining.old.hello.password }
{
    for _ in rt.forever() {
        if joining.is_owing() {
            joining.say()?;
            continue;
        }
        match joining.told() {
            Some(joined) => return Ok(joined),
            None => joining.hear()?,
        }
    }
    unreachable!()
}

/// Tells the host the first messages to their end.
fn tell_on<L: Link, R: Wait>(rt: &R, joining: &mut Joining<'_, L>) -> Result<(), Fault>
    requires { joining.old.is_heard ≡ true }
    ensures tells { (password : Option (List ℕ)) (start : LinkState) (joined : Joined)
        → IsTelling password start (L.state joining.old.link.now)
        joined joining.old.messages joining.old.given
        → MatchResult result (λ _. IsTelling password start
        (L.state joining.new.link.now) joined joining.new.messages joining.new.given)
        (λ fault. LinkFails fault start (L.state joining.new.link.now)) }
    ensures whole { OnOk result (length joining.new.messages ≤ joining.new.given) }
    ensures same { joining.new.link.ghost_name ≡ joining.old.link.ghost_name }
    ensures first { joining.new.first ≡ joining.old.first }
    ensures password { joining.new.hello.password ≡ joining.old.hello.password }
{
    for _ in rt.forever() {
        if joining.is_told() {
            return Ok(());
        }
        joining.tell()?;
    }
    unreachable!()
}

/// Calls the join's steps until the host is joined or a fault comes. Of what matters it is lent the join alone.
pub fn join_on<L: Link, R: Wait>(rt: &R, joining: &mut Joining<'_, L>) -> Result<Joined, Fault>
    requires { (joining.old.is_heard ≡ false) × IsUnheard joining.old.hello }
    ensures joined { IfOk result (λ joined. Joins joining.old.hello.password
        (L.state joining.old.link.now) (L.state joining.new.link.now) joined) }
    ensures err { IfErr result (λ fault. FailsAs joining.old.hello.password fault
        (L.state joining.old.link.now) (L.state joining.new.link.now)) }
    ensures same { joining.new.link.ghost_name ≡ joining.old.link.ghost_name }
    ensures first { joining.new.first ≡ joining.old.first }
    ensures password { joining.new.hello.password ≡ joining.old.hello.password }
{
    let joined = hear_on(rt, joining)?;
    joining.begin_messages(&joined);
    tell_on(rt, joining)?;
    Ok(joined)
}

/// The same as `join_host`, with `by` in place of a handle: of the calls made here `by` alone may wait.
pub fn join_by<L: Link, F: JoinsOn<L>>(
    by: &F,
    password: Option<Password>,
    link: &mut L,
) -> Result<Joined, Fault>
    ensures joined { IfOk result (λ joined.
        Joins password (L.state link.old) (L.state link.new) joined) }
    ensures err { IfErr result (λ fault.
        FailsAs password fault (L.state link.old) (L.state link.new)) }
{
    let first = Snapshot::of(&*link);
    let mut joining = Joining::new(password, &first, link);
    by.join_on(&mut joining)
}

/// Joins on by a handle that may wait.
#[derive(Drop)]
struct Waiting<'a, R: Wait> {
    rt: &'a R,
}

impl<'a, L: Link, R: Wait> JoinsOn<L> for Waiting<'a, R> {
    fn join_on(&self, joining: &mut Joining<'_, L>) -> Result<Joined, Fault> {
        join_on(self.rt, joining)
    }
}

/// Joins the host at the other end, with this password if one is known. It takes the host's handshake and no byte
/// further, and gives the client's side of it. Then it asks for the format of `Format::HOST`, for the encodings
/// CopyRect, Hextile, RRE and Raw, and for the whole screen.
///
/// It fails with `LinkFailed` where the link failed in the meantime, and with `LinkEnded` where the link ended before
/// the last byte was given. Any other fault is one of the host's handshake.
pub fn join_host<L: Link, R: Wait>(
    rt: &R,
    password: Option<Password>,
    link: &mut L,
) -> Result<Joined, Fault>
    ensures joined { IfOk result (λ joined.
        Joins password (L.state link.old) (L.state link.new) joined) }
    ensures err { IfErr result (λ fault.
        FailsAs password fault (L.state link.old) (L.state link.new)) }
{
    join_by(&Waiting { rt }, password, link)
}
