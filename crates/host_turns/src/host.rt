//! What is done with one host: it is joined, its switch is put, and it is read. Nothing here takes a handle.

ghost use Rattle.std.specs.Prelude.{◌≡◌, ◌⊎◌, ◌<◌, ◌≤◌, [], ◌∷◌, ◌++◌, length, vec_capacity, vec_len, IfErr, IfOk, OnErr, OnOk};
ghost use Rattle.painter.specs.Same.{AreSameUpdates};
ghost use Rattle.raster.specs.Screen.{Canvas, opening};
ghost use Rattle.raster.specs.Size.{IsScreenSize};
ghost use Rattle.raster.specs.Switch.{switch, switch_to};
ghost use Rattle.rfb_wire.specs.Handshake.{Joined};
ghost use Rattle.link.specs.Joins.{Joins};
ghost use Rattle.host_decoder.specs.Decoder.{Decodes, IsFor, host_message};
ghost use Rattle.fault.specs.declared.kinds.Fault.TheVariants.{Memory};
ghost use Rattle.host_reader.specs.Running.{AwaitsMessage};
ghost use Rattle.host_reader.specs.Sizes.{HasSize, KeepsSize};
ghost use Rattle.host_turns.specs.Running.{IsMissed, IsReadOut, IsMet, IsUnfit};

use crate::supply::Hosts;
use fault::Fault;
use host_decoder::HostScreen;
use host_reader::{ReadsOn, put_patch, read_host};
use link::{JoinsOn, Link, join_by};
use painter::Patch;
use raster::Size;
use reflect_core::Puts;
use rfb_wire::Joined;
use std::alloc::Global;
use vnc_auth::Password;

/// What all hosts of a run have in common. The room is the size in pixels of the screen that viewers are told; each
/// host's screen lies at its top left.
#[derive(Clone, Copy, Drop)]
pub struct RunScreen {
    pub alloc: Global,
    pub width: u64,
    pub height: u64,
    /// The password that hosts may ask for, if one is known.
    pub password: Option<Password>,
    pub ghost size: { IsScreenSize width height },
}

/// Reads a host over a black screen to its end. No handle is beside its link and the publisher.
pub(crate) fn read<L: Link, P: Puts, F: ReadsOn<L, P>>(
    by: &F,
    alloc: Global,
    link: &mut L,
    screen: HostScreen,
    publisher: &mut P,
) -> Result<(), Fault>
    requires begins { AwaitsMessage screen.decoder screen.painter opening }
    requires pair { IsFor screen.decoder screen.painter }
    requires publisher { HasSize P.width P.height publisher.old screen.decoder.width
        screen.decoder.height }
    ensures publisher { KeepsSize P.width P.height publisher.old publisher.new }
    ensures read { IsReadOut screen.decoder.width screen.decoder.height result (L.state link.old)
        (L.state link.new) (P.updates publisher.old) (P.updates publisher.new) }
    ensures given { (L.state link.new).given ≡ (L.state link.old).given }
{
    let HostScreen {
        mut decoder,
        mut painter,
    } = screen;
    read_host(by, alloc, link, &mut decoder, &mut painter, publisher)
}

/// Joins a host, with the run's password if one is known. It fails with `BadScreen` where the host's screen is larger
/// than the room.
fn join_within<L: Link, F: JoinsOn<L>>(
    by: &F,
    run_screen: &RunScreen,
    link: &mut L,
) -> Result<Joined, Fault>
    ensures joins { IfOk result (λ joined.
        Joins run_screen.now.password (L.state link.old) (L.state link.new) joined) }
    ensures fits { IfOk result (λ joined.
        (joined.w ≤ run_screen.now.width) × (joined.h ≤ run_screen.now.height)) }
    ensures err { IfErr result (λ fault.
        IsUnfit run_screen.now.width run_screen.now.height run_screen.now.password fault
        (L.state link.old) (L.state link.new)) }
{
    let joined = join_by(by, run_screen.password, link)?;
    if joined.w > run_screen.width || joined.h > run_screen.height {
        return Err(Fault::BadScreen);
    }
    Ok(joined)
}

/// Takes all the memory that a further host of this size needs: room for its link, what reads the host, and the patch
/// of its switch.
fn make_ready<L>(
    run_screen: &RunScreen,
    size: Size,
    links: &mut Vec<L>,
) -> Result<(HostScreen, Patch), Fault>
    requires { (size.width ≤ run_screen.now.width) × (size.height ≤ run_screen.now.height) }
    ensures links { links.new.items ≡ links.old.items }
    ensures room { OnOk result (vec_len links.new < vec_capacity links.new) }
    ensures size { IfOk result (λ made. (made.0.decoder.width ≡ run_screen.now.width)
        × (made.0.decoder.height ≡ run_screen.now.height)) }
    ensures begins { IfOk result (λ made.
        Decodes made.0.decoder made.0.painter opening
        (host_message run_screen.now.width run_screen.now.height)) }
    ensures pair { IfOk result (λ made. IsFor made.0.decoder made.0.painter) }
    ensures sized { IfOk result (λ made.
        (made.1.width ≡ run_screen.now.width) × (made.1.height ≡ run_screen.now.height)) }
    ensures same { IfOk result (λ made. (start : Canvas)
        → AreSameUpdates run_screen.now.width run_screen.now.height start (switch_to size ∷ [])
        (made.1.update ∷ [])) }
    ensures err { IfErr result (λ fault. fault ≡ Memory) }
{
    links.reserve(1)?;
    HostScreen::switched(run_screen.alloc, run_screen.width, run_screen.height, size)
}

/// Joins a host within the room, and then puts the switch to it. Room for its link is taken, beside the links of the
/// hosts that were read.
pub(crate) fn meet<L: Link, H: Hosts<L>, P: Puts, F: JoinsOn<L>>(
    by: &F,
    run_screen: &RunScreen,
    hosts: &mut H,
    link: &mut L,
    links: &mut Vec<L>,
    publisher: &mut P,
) -> Result<HostScreen, Fault>
    requires { HasSize P.width P.height publisher.old run_screen.now.width run_screen.now.height }
    ensures publisher { KeepsSize P.width P.height publisher.old publisher.new }
    ensures again { H.again hosts.new ≡ H.again hosts.old }
    ensures links { links.new.items ≡ links.old.items }
    ensures room { OnOk result (vec_len links.new < vec_capacity links.new) }
    ensures size { IfOk result (λ screen. (screen.decoder.width ≡ run_screen.now.width)
        × (screen.decoder.height ≡ run_screen.now.height)) }
    ensures begins { IfOk result (λ screen.
        Decodes screen.decoder screen.painter opening
        (host_message run_screen.now.width run_screen.now.height)) }
    ensures pair { IfOk result (λ screen. IsFor screen.decoder screen.painter) }
    ensures met { OnOk result (IsMet run_screen.now.width run_screen.now.height
        run_screen.now.password (L.state link.old) (L.state link.new) (P.updates publisher.old)
        (P.updates publisher.new)) }
    ensures err { IfErr result (λ fault.
        IsMissed run_screen.now.width run_screen.now.height run_screen.now.password
        (length (P.updates publisher.old)) fault (L.state link.old)) }
    ensures unput { OnErr result (P.updates publisher.new ≡ P.updates publisher.old) }
{
    let joined = join_within(by, run_screen, link)?;
    let size = Size {
        width: joined.w,
        height: joined.h,
    };
    hosts.joined(link, &joined);
    let (screen, patch) = make_ready(run_screen, size, links)?;
    put_patch(publisher, patch)?;
    Ok(screen)
}
