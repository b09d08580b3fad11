//! Reads one host after another.

ghost use Rattle.std.specs.Prelude.{◌≡◌, true, None, [], map};
ghost use Rattle.raster.specs.Screen.{opening};
ghost use Rattle.host_decoder.specs.Decoder.{Decodes, host_message};
ghost use Rattle.host_turns.specs.Running.{HasRun, IsComing, IsOver, came_over, goes_on};

use crate::stages::{EndedRun, JoinedRun};
use crate::supply::Hosts;
use fault::Fault;
use host_reader::{Reading, ReadsOn, read_on};
use link::{Joining, JoinsOn, Link, join_on};
use reflect_core::Puts;
use rfb_wire::Joined;
use run_traits::Alarm;
use std::sync::Wait;

/// The two loops over one host, which call the steps of its join and of its reading, by a handle that may wait.
#[derive(Drop)]
struct Waiting<'a, R: Wait> {
    rt: &'a R,
}

impl<'a, L: Link, R: Wait> JoinsOn<L> for Waiting<'a, R> {
    fn join_on(&self, joining: &mut Joining<'_, L>) -> Result<Joined, Fault> {
        join_on(self.rt, joining)
    }
}

impl<'a, L: Link, P: Puts, R: Wait> ReadsOn<L, P> for Waiting<'a, R> {
    fn read_on(&self, reading: &mut Reading<'_, L, P>) -> Result<(), Fault> {
        read_on(self.rt, reading)
    }
}

/// Reads the first host and then the others, in turn, and adds the links of those that were read. While a host is read,
/// it is handed over to the thread that tells it. This function is given the run, which it can't take apart: it can
/// call the steps of the run's stages, and wait, and nothing else.
///
/// Where the first host has its turn again, the call returns only where a host has ended in such a way that no other is
/// taken.
///
/// The run's last answer is that of its last host: the fault of reading or of joining it, `BadScreen` where its screen
/// doesn't fit into the room, `Memory` where memory that it needs is refused, and `NumbersOut` where there is no number
/// for its switch. It says, too, whether that host had called.
pub fn read_all<'a, L, H, P, W, T, R>(
    rt: &R,
    run: JoinedRun<'a, L, H, P, W, T>,
) -> EndedRun<'a, L, H, P, W, T>
where
    L: Link,
    H: Hosts<L>,
    P: Puts,
    W: Alarm + Drop,
    T: Drop,
    R: Wait,
    requires begins { Decodes run.screen.decoder run.screen.painter opening
        (host_message run.lent.run_screen.now.width run.lent.run_screen.now.height) }
    requires none { run.parts.links.items ≡ [] }
    ensures run { HasRun run.entry.lent.run_screen.now.width run.entry.lent.run_screen.now.height
        run.entry.lent.run_screen.now.password (IsComing L.state H.came) result.last
        (came_over run.entry.has_called (L.state run.entry.reader))
        (map L.state result.parts.links.items) (P.updates run.entry.parts.publisher)
        (P.updates result.parts.publisher) }
    ensures over { IsOver H.are_out result.parts.hosts result.last }
    ensures never { goes_on result.last ≡ true
        → H.again run.entry.lent.first.now.hosts.value ≡ None }
{
    let waiting = Waiting { rt };
    let mut idle = run.read(&waiting);
    for _ in rt.forever() {
        let met = match idle.next() {
            Ok(met) => met,
            Err(ended) => {
                ended.handover().close(rt);
                return ended;
            }
        };
        let (joined, end) = match met.join(&waiting) {
            Ok(joined) => joined,
            Err(missed) => {
                idle = missed;
                continue;
            }
        };
        joined.handover().give(rt, end);
        idle = joined.read(&waiting);
    }
    unreachable!()
}
