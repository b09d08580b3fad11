//! Hears the host's handshake, and says the client's side of it, a piece at a time.

ghost use Rattle.std.specs.Prelude.{◌≡◌, ◌<◌, ◌≤◌, ◌++◌, true, [], ◌∷◌, IfOk, IfErr, MatchResult, OnErr, length, option_to_list, take};
ghost use Rattle.byte_reading.specs.Reading.{wants_more};
ghost use Rattle.rfb_wire.specs.Joining.{ahead, to_send};
ghost use Rattle.link.specs.Joins.{FailsAs, LinkFails};
ghost use Rattle.link.specs.Links.{LinkState};
ghost use Rattle.link.specs.Moment.{HearsSoFar, IsHearing};

use crate::link::{Gave, Link, Took};
use fault::Fault;
use rfb_wire::HostHello;

/// Gives as many of these bytes as the link takes now, and answers how many.
pub(crate) fn give_some<L: Link>(link: &mut L, bytes: &[u8]) -> Result<usize, Fault>
    requires { 0 < length bytes.now }
    ensures given { IfOk result (λ count. (count ≤ length bytes.now)
        × (L.state link.new
        ≡ record (L.state link.old) { given = (L.state link.old).given ++ take count bytes.now })) }
    ensures ungiven { OnErr result ((L.state link.new).given ≡ (L.state link.old).given) }
    ensures taken { (L.state link.new).taken ≡ (L.state link.old).taken }
    ensures err { IfErr result (λ fault. LinkFails fault (L.state link.old) (L.state link.new)) }
{
    match link.give(bytes) {
        Gave::Bytes(count) => Ok(count),
        Gave::Nothing => Ok(0),
        Gave::End => Err(Fault::LinkEnded),
        Gave::Failed => Err(Fault::LinkFailed),
    }
}

/// Takes the next byte, if one has come. A handshake is short, and what comes after it is left to others.
fn take_byte<L: Link>(link: &mut L) -> Result<Option<u8>, Fault>
    ensures taken { IfOk result (λ byte. L.state link.new
        ≡ record (L.state link.old) { taken = (L.state link.old).taken ++ option_to_list byte }) }
    ensures untaken { OnErr result ((L.state link.new).taken ≡ (L.state link.old).taken) }
    ensures given { (L.state link.new).given ≡ (L.state link.old).given }
    ensures err { IfErr result (λ fault. LinkFails fault (L.state link.old) (L.state link.new)) }
{
    let mut byte = [0];
    match link.take(&mut byte) {
        Took::Bytes(_) => Ok(Some(byte[0])),
        Took::Nothing => Ok(None),
        Took::End => Err(Fault::LinkEnded),
        Took::Failed => Err(Fault::LinkFailed),
    }
}

/// Gives as much as the link takes now of what is to be said to the host.
pub(crate) fn say<L: Link>(link: &mut L, hello: &mut HostHello) -> Result<(), Fault>
    requires { 0 < length (to_send hello.old) }
    ensures password { hello.new.password ≡ hello.old.password }
    ensures so_far { (start : LinkState) → HearsSoFar start (L.state link.old) hello.old
        → HearsSoFar start (L.state link.new) hello.new }
    ensures keeps { (start : LinkState) → IsHearing start (L.state link.old) hello.old
        → MatchResult result (λ _. IsHearing start (L.state link.new) hello.new)
        (λ fault. FailsAs hello.old.password fault start (L.state link.new)) }
{
    let count = give_some(link, hello.out())?;
    hello.sent(count);
    Ok(())
}

/// Takes the next byte of the host's handshake, if it has come.
pub(crate) fn hear<L: Link>(link: &mut L, hello: &mut HostHello) -> Result<(), Fault>
    requires { wants_more (ahead hello.old) ≡ true }
    ensures password { hello.new.password ≡ hello.old.password }
    ensures so_far { (start : LinkState) → HearsSoFar start (L.state link.old) hello.old
        → HearsSoFar start (L.state link.new) hello.new }
    ensures keeps { (start : LinkState) → IsHearing start (L.state link.old) hello.old
        → MatchResult result (λ _. IsHearing start (L.state link.new) hello.new)
        (λ fault. FailsAs hello.old.password fault start (L.state link.new)) }
{
    let taken = take_byte(link)?;
    let Some(byte) = taken else {
        return Ok(());
    };
    hello.feed(&[byte])?;
    Ok(())
}
