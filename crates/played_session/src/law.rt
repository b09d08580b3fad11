//! What a decoder of a host's messages shows of what a viewer was sent.

ghost use Rattle.played_session.specs.Pictures.{PlayersNeverGoBack};
ghost use Rattle.played_session.specs.Played.{HellosAreHeard, RecordingsShowWhatWasSent};
ghost use Rattle.played_session.specs.ReadAlike.{ViewersAndDecodersReadAlike};
ghost use Rattle.played_session.specs.Recorded.{RecordersKeepWhatWasShown};
ghost use Rattle.played_session.specs.Recorder.{RecordersAreForRecording, RecordersAskForAll};

use rfb_wire::client_messages_are_read;

/// A viewer in the host's pixel format and a decoder of a host's messages read the same bytes, whatever these are.
/// Then both have read the same messages whole, and stand at the same place of the next one, or at the same fault; and
/// wherever the viewer holds a pixel value, the decoder shows its colour.
pub fn viewers_and_decoders_read_alike()
    ensures { ViewersAndDecodersReadAlike }
{}

/// What a session says after its hello to a viewer that takes full colour and no ZRLE, as a recorder does, are whole
/// messages of a host. Who plays them shows, once each answer has come, the area that was asked for as the host's
/// screen was after the first n updates. That n is at least every number that was seen, cut at or answered before.
pub fn recordings_show_what_was_sent()
    ensures { RecordingsShowWhatWasSent }
{}

/// Wherever a player is in what a session says after its hello to a viewer in full colour, which asks for all of the
/// screen, it shows the whole screen as the host's was after some number of updates; and further on, after at least so
/// many.
pub fn players_never_go_back()
    ensures { PlayersNeverGoBack }
{}

/// All that a viewer is sent whose hello is done is a whole handshake of a host without a password, of the session's
/// screen and name, and then what is said after it.
pub fn hellos_are_heard()
    ensures { HellosAreHeard }
{}

/// The viewer that a recorder is takes full colour and no ZRLE: of what the recorder says its session reads nothing
/// else, as far as it has come. It asks for all of the screen, too, and takes no new sizes. So what
/// `recordings_show_what_was_sent` and `players_never_go_back` promise holds of each recorder.
pub fn recorders_are_for_recording()
    ensures colour { RecordersAreForRecording }
    ensures all { RecordersAskForAll }
{
    client_messages_are_read();
}

/// All that a recorder has kept of a session, at every moment, played: at any place behind the handshake it shows the
/// whole screen as the host's was after some number of updates, and further on after at least so many.
pub fn recorders_keep_what_was_shown()
    ensures { RecordersKeepWhatWasShown }
{
    client_messages_are_read();
}
