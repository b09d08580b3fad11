//! A law: the events of a stream bring the updates of the stream.

ghost use Rattle.std.specs.Prelude.{◌≡◌, ℕ, List, [], ◌∷◌, map};
ghost use Rattle.std.specs.List.{filter_map};
ghost use Rattle.byte_reading.specs.Reading.{messages};
ghost use Rattle.rfb_wire.specs.ServerMessage.{ServerMessage};
ghost use Rattle.host_decoder.specs.Decoder.{host_message};
ghost use Rattle.host_decoder.specs.Events.{brought_by, event_of, update_in};
ghost use Rattle.host_decoder.specs.Updates.{update_of, updates};

/// The event of a message brings the message's update, so the events of a stream's messages bring the stream's updates.
pub fn event_brings_update()
    ensures one { (w h : ℕ) (m : ServerMessage) → update_in (event_of w h m) ≡ update_of m }
    ensures listed { (w h : ℕ) (m : ServerMessage)
        → brought_by (event_of w h m) ≡ filter_map update_of (m ∷ []) }
    ensures all { (w h : ℕ) (bytes : List ℕ)
        → filter_map update_in (map (event_of w h) (messages (host_message w h) bytes))
        ≡ updates w h bytes }
{}
