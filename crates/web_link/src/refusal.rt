//! What a client is told where no place is free for it.

ghost use Rattle.std.specs.Prelude.{◌≡◌, ◌+◌, ◌≤◌, ◌++◌, length};
ghost use Rattle.std.specs.Int.{w16, to_be_bytes};
ghost use Rattle.websocket.specs.declared.protocol.frame.coding.Control.TheVariants.{Close};
ghost use Rattle.websocket.specs.Frame.{encode_frame};
ghost use Rattle.web_frames.specs.Frames.{binary_header, control_header};
ghost use Rattle.web_link.specs.declared.saying.Saying.TheVariants.{Closed};
ghost use Rattle.web_link.specs.Web.{Says};

use arrayvec::ArrayVec;
use web_frames::{binary_head, control_frame};
use websocket::protocol::frame::coding::Control;

/// The close code that tells a client to try again later (the registry of RFC 6455, section 11.7).
const TRY_AGAIN: u16 = 1013;

/// A refusal has at most this many bytes with its frames.
pub const MOST_REFUSAL: usize = 256;

/// The frames that tell a client these bytes in two messages, and then close with 1013. An RFB client waits for a
/// message after the one with the version, so it would never show a reason that came in one message with the version.
pub fn refusal_frames(version: &[u8], reason: &[u8]) -> ArrayVec<u8, MOST_REFUSAL>
    requires version { 1 ≤ length version.now }
    requires reason { 1 ≤ length reason.now }
    requires short { length version.now + length reason.now ≤ 116 }
    ensures frames { result.items
        ≡ encode_frame binary_header version.now ++ encode_frame binary_header reason.now
        ++ encode_frame (control_header Close) (to_be_bytes w16 1013) }
    ensures read { Says result.items (version.now ++ reason.now) Closed }
{
    spell(version, reason)
}

fn spell(version: &[u8], reason: &[u8]) -> ArrayVec<u8, MOST_REFUSAL>
    requires version { length version.now ≤ 116 }
    requires short { length version.now + length reason.now ≤ 116 }
    ensures { result.items
        ≡ encode_frame binary_header version.now ++ encode_frame binary_header reason.now
        ++ encode_frame (control_header Close) (to_be_bytes w16 1013) }
{
    let mut frames = ArrayVec::new();
    add_message(&mut frames, version);
    add_message(&mut frames, reason);
    let close = control_frame(Control::Close, &TRY_AGAIN.to_be_bytes());
    add(&mut frames, close.as_slice());
    frames
}

fn add_message(frames: &mut ArrayVec<u8, MOST_REFUSAL>, payload: &[u8])
    requires { length frames.old.items + length payload.now + 4 ≤ 256 }
    ensures added { frames.new.items ≡ frames.old.items ++ encode_frame binary_header payload.now }
    ensures few { length frames.new.items ≤ length frames.old.items + length payload.now + 4 }
{
    let head = binary_head(payload.len() as u16);
    add(frames, head.as_slice());
    add(frames, payload);
}

fn add(frames: &mut ArrayVec<u8, MOST_REFUSAL>, bytes: &[u8])
    requires { length frames.old.items + length bytes.now ≤ 256 }
    ensures added { frames.new.items ≡ frames.old.items ++ bytes.now }
    ensures few { length frames.new.items ≡ length frames.old.items + length bytes.now }
{
    if frames.try_extend_from_slice(bytes).is_err() {
        unreachable!();
    }
}
