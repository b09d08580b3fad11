//! Follows a recorded session to its end.

ghost use Rattle.std.specs.Prelude.{◌≡◌, ◌≢◌, IfOk, IfErr};
ghost use Rattle.fault.specs.declared.kinds.Fault.TheVariants.{LinkEnded};
ghost use Rattle.raster.specs.Size.{IsScreenSize};
ghost use Rattle.recorded_picture.specs.Recorded.{HasNone, ShowsAll, ShowsStream, StopsIn};

use crate::picture::Picture;
use fault::Fault;
use host_decoder::HostDecoder;
use host_reader::run_host;
use link::{Link, join_host};
use painter::{Painter, same_updates_show_the_same};
use std::alloc::Global;
use std::sync::Wait;

/// The picture, where the fault is only that the link ended; otherwise the fault.
fn unless_ended(fault: Fault, picture: Picture) -> Result<Picture, Fault>
    ensures ok { IfOk result (λ given. (given ≡ picture) × (fault ≡ LinkEnded)) }
    ensures err { IfErr result (λ given. (given ≡ fault) × (fault ≢ LinkEnded)) }
{
    match fault {
        Fault::LinkEnded => Ok(picture),
        _ => Err(fault),
    }
}

/// The picture that a host's messages show once the link has handed out all of them and ends.
fn show_stream<L: Link, R: Wait>(
    rt: &R,
    alloc: Global,
    w: u64,
    h: u64,
    link: &mut L,
) -> Result<Picture, Fault>
    requires { IsScreenSize w h }
    ensures ok { IfOk result (λ picture.
        ShowsStream w h (L.state link.old) (L.state link.new) picture) }
    ensures err { IfErr result (λ fault. StopsIn w h fault (L.state link.old) (L.state link.new)) }
{
    let mut painter = Painter::new(alloc, w, h)?;
    let mut decoder = HostDecoder::new(alloc, w, h);
    let mut picture = Picture::black(alloc, w, h)?;
    let ended = run_host(rt, alloc, link, &mut decoder, &mut painter, &mut picture);
    picture.so_far();
    same_updates_show_the_same();
    match ended {
        Ok(()) => Ok(picture),
        Err(fault) => unless_ended(fault, picture),
    }
}

/// The picture that a session shows once the link has handed out all of it, a host's handshake and its messages, and
/// ends. Where the link ends inside a message, that message counts for nothing.
///
/// It fails with `LinkEnded` where the link ends before the handshake is whole, with `LinkFailed` where the link fails,
/// with `Memory` where memory is refused, and with the fault of the host's bytes. The host's side of the handshake has
/// security type None.
pub fn picture_of<L: Link, R: Wait>(rt: &R, alloc: Global, link: &mut L) -> Result<Picture, Fault>
    ensures ok { IfOk result (λ picture. ShowsAll (L.state link.old) (L.state link.new) picture) }
    ensures err { IfErr result (λ fault. HasNone fault (L.state link.old) (L.state link.new)) }
{
    let joined = join_host(rt, None, link)?;
    show_stream(rt, alloc, joined.w, joined.h, link)
}
