//! Laws about reading, in terms of what a client sends.

ghost use Rattle.web_frames.specs.Breaches.{NothingIsReadAfterABreach, NothingIsReadAfterAClose};
ghost use Rattle.web_frames.specs.Clients.{AllFramesAreRead};

/// Whatever frames a client may send, however many, fragmented and with pings between them: exactly the data that they
/// carry are read. `FrameReader::read` reads the same in whatever pieces they come.
pub fn all_frames_are_read()
    ensures { AllFramesAreRead }
{}

/// Nothing is read of a frame that a client may not send, nor of what follows such a frame: one without a mask, one of
/// a text, or a part that belongs to no message. Reading then stands `Broken`.
pub fn nothing_is_read_after_a_breach()
    ensures { NothingIsReadAfterABreach }
{}

/// Nothing is read of a close frame, nor of what follows it. Reading then stands `Ended`.
pub fn nothing_is_read_after_a_close()
    ensures { NothingIsReadAfterAClose }
{}
