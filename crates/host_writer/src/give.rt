//! Gives the link what is said.

ghost use Rattle.std.specs.Prelude.{◌<◌, MatchResult, length};
ghost use Rattle.host_writer.specs.Saying.{left_of};
ghost use Rattle.host_writer.specs.Moment.{Gives, IsOpen, StopsSaying};

use crate::saying::Saying;
use link::{Gave, Halt, Link};

/// Gives the link the bytes that are left, as many as it takes now. It answers whether the link took any, or why
/// nothing more can be given over it.
pub(crate) fn give<L: Link>(link: &mut L, saying: &mut Saying) -> Result<bool, Halt>
    requires { 0 < length (left_of saying.old) }
    ensures gives { Gives saying.old saying.new (L.state link.old) (L.state link.new) }
    ensures stops { MatchResult result (λ _. IsOpen (L.state link.old) (L.state link.new))
        (λ halt. StopsSaying ⊥ halt saying.new (L.state link.old) (L.state link.new)) }
{
    match link.give(saying.front()) {
        Gave::Bytes(count) => {
            saying.go_on(count);
            Ok(true)
        }
        Gave::Nothing => Ok(false),
        Gave::End if saying.is_begun() => Err(Halt::Inside),
        Gave::End => Err(Halt::Before),
        Gave::Failed => Err(Halt::Failed),
    }
}
