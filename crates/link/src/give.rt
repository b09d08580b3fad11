//! Gives a link a list of bytes to its end.

ghost use Rattle.std.specs.Prelude.{◌≡◌, ◌++◌, OnOk, IfErr};
ghost use Rattle.link.specs.Halting.{HaltsAt};

use crate::link::{Gave, Link};
use crate::waiting::StopFlag;
use std::sync::Wait;

/// Why giving stops before the last byte.
#[derive(Clone, Copy)]
pub enum Halt {
    /// The link takes nothing now, and the flag is set.
    Stopped,
    /// The link ended before the first byte.
    Before,
    /// The link ended after the first byte.
    Inside,
    /// The link failed.
    Failed,
}

/// Gives all of these bytes. While the link takes none it asks again, until the flag is set; it waits as the link does.
pub fn give_all<L: Link, F: StopFlag, R: Wait>(
    rt: &R,
    link: &mut L,
    stop: &F,
    bytes: &[u8],
) -> Result<(), Halt>
    ensures ok { OnOk result (L.state link.new
        ≡ record (L.state link.old) { given = (L.state link.old).given ++ bytes.now }) }
    ensures err { IfErr result (λ halt.
        HaltsAt (F.was_set stop.now) halt (L.state link.old) (L.state link.new) bytes.now) }
{
    let mut left = bytes;
    for _ in rt.forever() {
        if left.is_empty() {
            return Ok(());
        }
        match link.give(left) {
            Gave::Bytes(count) => {
                let (_, rest) = left.split_at(count);
                left = rest;
            }
            Gave::Nothing => {
                if stop.is_set() {
                    return Err(Halt::Stopped);
                }
            }
            Gave::End => {
                if left.len() == bytes.len() {
                    return Err(Halt::Before);
                }
                return Err(Halt::Inside);
            }
            Gave::Failed => return Err(Halt::Failed),
        }
    }
    unreachable!()
}
