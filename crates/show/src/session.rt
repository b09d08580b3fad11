//! The file of PNG that shows where a session ends.

ghost use Rattle.std.specs.Prelude.{◌≡◌, IfOk, IfErr};
ghost use Rattle.playback.specs.Playing.{state_of};
ghost use Rattle.show.specs.Shown.{HasNoPng, ShowsAsPng, ShowsRecording};

use crate::marked::MarkedLink;
use fault::Fault;
use link::Link;
use playback::{Pace, PlayedLink, Recorded};
use png::png_of;
use recorded_picture::picture_of;
use std::alloc::Global;
use std::sync::Wait;

/// A file of PNG that shows the picture of a session once all has come that a link hands out until it ends. It fails as
/// `recorded_picture::picture_of` does.
pub fn png_of_session<L: Link, R: Wait>(
    rt: &R,
    alloc: Global,
    link: &mut L,
) -> Result<Vec<u8>, Fault>
    ensures ok { IfOk result (λ file. ShowsAsPng (L.state link.old) (L.state link.new) file.items) }
    ensures err { IfErr result (λ fault. HasNoPng fault (L.state link.old) (L.state link.new)) }
{
    let picture = picture_of(rt, alloc, link)?;
    let (width, height) = picture.size();
    let file = png_of(alloc, width, height, picture.colours())?;
    Ok(file)
}

/// A file of PNG that shows what a recording shows at the time up to which this link plays it, or at its end; and that
/// link again. The link that is given hasn't ended yet. It fails as `recorded_picture::picture_of` does.
pub fn png_of_recording<F: Recorded, P: Pace, R: Wait>(
    rt: &R,
    alloc: Global,
    link: PlayedLink<F, P>,
) -> (Result<Vec<u8>, Fault>, PlayedLink<F, P>)
    requires { link.ended ≡ 0 }
    ensures ok { IfOk result.0 (λ file.
        ShowsRecording P.has_come F.is_all link result.1 file.items) }
    ensures err { IfErr result.0 (λ fault. HasNoPng fault (state_of link) (state_of result.1)) }
{
    let mut marked = MarkedLink::new(link);
    let file = png_of_session(rt, alloc, &mut marked);
    let link = marked.into_played();
    link.plays();
    (file, link)
}
