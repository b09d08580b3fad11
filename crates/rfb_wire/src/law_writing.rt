//! Laws about reading what is written, in both directions.

ghost use Rattle.std.specs.Prelude.{◌≡◌, ◌≤◌, ◌<◌, ◌+◌, ◌^◌, ℕ, Bool, List, [], ◌∷◌, ◌++◌, Option, None, length};
ghost use Rattle.std.specs.List.{All};
ghost use Rattle.pixel_format.specs.PixelFormat.{PixelFormat, IsAccepted};
ghost use Rattle.byte_reading.specs.Reading.{Done, after, Spells};
ghost use Rattle.raster.specs.declared.rect.Rect.{Rect};
ghost use Rattle.rfb_wire.specs.ClientMessage.{client_message, choice_of, longest_text, SetPixelFormat, SetEncodings, Ask, Key, Pointer, CutText, LostText};
ghost use Rattle.rfb_wire.specs.ServerMessage as server;
ghost use Rattle.rfb_wire.specs.Handshake.{Joined, server_init, host_init, host_hello, viewer_hello, said_to_viewer, said_to_host};
ghost use Rattle.rfb_wire.specs.Writing.{set_pixel_format_bytes, set_encodings_bytes, request_bytes, key_bytes, pointer_bytes, client_text_bytes, bell_bytes, server_text_bytes};

/// Each message to the host is read as the message that was written. A text of more than 65,536 bytes is read as one
/// that is lost.
pub fn client_messages_are_read()
    ensures format { (format : PixelFormat) → IsAccepted format
        → Spells client_message (set_pixel_format_bytes format) (SetPixelFormat format) }
    ensures encodings { (encodings : List ℕ) → length encodings < 2 ^ 16
        → All (λ e. e < 2 ^ 32) encodings
        → Spells client_message (set_encodings_bytes encodings)
        (SetEncodings (choice_of encodings)) }
    ensures request { (incremental : Bool) (area : Rect) → area.x + area.w < 2 ^ 16
        → area.y + area.h < 2 ^ 16
        → Spells client_message (request_bytes incremental area) (Ask incremental area) }
    ensures key { (down : Bool) (key : ℕ) → key < 2 ^ 32
        → Spells client_message (key_bytes down key) (Key down key) }
    ensures pointer { (mask x y : ℕ) → x < 2 ^ 16 → y < 2 ^ 16
        → Spells client_message (pointer_bytes mask x y) (Pointer mask x y) }
    ensures text { (text : List ℕ) → length text ≤ longest_text
        → Spells client_message (client_text_bytes text) (CutText text) }
    ensures lost { (text : List ℕ) → longest_text < length text → length text < 2 ^ 32
        → Spells client_message (client_text_bytes text) (LostText (length text)) }
{}

/// Every viewer reads a Bell as a Bell and a text as that text. A text of more than 65,536 bytes is read as one that is
/// lost. `update_is_read` speaks of updates.
pub fn server_messages_are_read()
    ensures bell { (format : PixelFormat) (w h : ℕ)
        → Spells (server.server_message format w h) bell_bytes server.Bell }
    ensures text { (format : PixelFormat) (w h : ℕ) (text : List ℕ) → length text ≤ longest_text
        → Spells (server.server_message format w h) (server_text_bytes text)
        (server.ServerCutText text) }
    ensures lost { (format : PixelFormat) (w h : ℕ) (text : List ℕ) → longest_text < length text
        → length text < 2 ^ 32
        → Spells (server.server_message format w h) (server_text_bytes text)
        (server.LostText (length text)) }
{}

/// What each side says in a handshake is what the other side waits for.
pub fn handshake_is_read()
    // A ServerInit is read as the screen and the name that it tells.
    ensures init { (w h : ℕ) (name : List ℕ) → 1 ≤ w → w ≤ 4096 → 1 ≤ h → h ≤ 4096
        → length name ≤ 255
        → Spells host_init (server_init w h name) (record { w = w; h = h; name = name }) }
    // All that is said to a viewer is a host's whole handshake, for one who has a password as well.
    ensures viewer { (password : Option (List ℕ)) (w h : ℕ) (name : List ℕ) → 1 ≤ w → w ≤ 4096
        → 1 ≤ h → h ≤ 4096 → length name ≤ 255
        → Spells (host_hello password) (said_to_viewer w h name 14)
        (record { w = w; h = h; name = name }) }
    // All that is said to a host, where its handshake is whole, is a viewer's whole handshake, if no password is known.
    ensures host { (stream : List ℕ) (joined : Joined)
        → after (host_hello None) stream ≡ Done joined
        → Spells viewer_hello (said_to_host None stream) tt }
    // What must have been said after some bytes begins what must have been said after more.
    ensures begins { (password : Option (List ℕ)) (before more : List ℕ) → (rest : List ℕ)
        × (said_to_host password (before ++ more) ≡ said_to_host password before ++ rest) }
{}
