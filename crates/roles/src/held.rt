//! Which input of a viewer passes to the host, and what has to be released where it leaves.

ghost use Rattle.std.specs.Prelude.{◌≡◌, ◌≤◌, ℕ, List, [], ◌∷◌, ◌++◌, false, true, Some, MatchOption, length, nat_lt};
ghost use Rattle.std.specs.List.{prefix_len};
ghost use Rattle.rfb_wire.specs.ClientMessage as client;
ghost use Rattle.rfb_wire.specs.Message.{message_of};
ghost use Rattle.roles.specs.Allowed.{Key, allowed, input_of, is_down, passes};
ghost use Rattle.roles.specs.Held.{input_in, Kept, nothing_kept, HeldStands, input_for, passes_if, kept_after, passed_if, left_in};
ghost use Rattle.roles.specs.Strokes.{is_holding};

use crate::input::Input;
use crate::role::Role;
use arrayvec::ArrayVec;
use rfb_wire::ClientMessage;
use std::marker::Model;

/// The most keys that are held down for one viewer.
const MOST_KEYS: usize = 64;

/// The keys that a viewer holds down, by rising number, and its last pointer event.
#[derive(Drop)]
pub struct Held {
    keys: ArrayVec<u32, MOST_KEYS>,
    mask: u8,
    x: u16,
    y: u16,
}

impl Model for Held {
    ghost use Rattle.std.specs.Prelude.{◌≡◌, true};
    ghost use Rattle.roles.specs.Held.{Kept, is_rising};

    ghost Value = { Kept };

    ghost view = { λ h. record { keys = h.keys.items; mask = h.mask; x = h.x; y = h.y } };

    ghost invariant = { λ h. is_rising h.keys.items ≡ true };
}

/// How many keys are lower than this one, from the first on.
fn place_of(keys: &[u32], key: u32) -> usize
    ensures value { result ≡ prefix_len (λ k. nat_lt k key) keys.now }
    ensures within { result ≤ length keys.now }
{
    for (index, held) in keys.iter().enumerate() {
        if *held >= key {
            return index;
        }
    }
    keys.len()
}

/// Whether a key is among them.
fn is_among(keys: &[u32], key: u32) -> bool
    ensures { result ≡ is_down key keys.now }
{
    keys.contains(&key)
}

impl Held {
    /// A viewer that holds nothing down and has sent no pointer event.
    pub fn new() -> Self
        ensures { result ≡ nothing_kept }
    {
        Held {
            keys: ArrayVec::new(),
            mask: 0,
            x: 0,
            y: 0,
        }
    }

    /// A press passes where the key is down already or there is room for it.
    fn press(&mut self, key: u32) -> bool
        ensures value { result ≡ passes self.old.keys (Key true key) }
        ensures kept { self.new ≡ kept_after self.old (Some (Key true key)) }
    {
        if is_among(self.keys.as_slice(), key) {
            return true;
        }
        if self.keys.is_full() {
            return false;
        }
        let place = place_of(self.keys.as_slice(), key);
        self.keys.insert(place, key);
        true
    }

    /// A release passes where the key is down.
    fn lift(&mut self, key: u32) -> bool
        ensures value { result ≡ passes self.old.keys (Key false key) }
        ensures kept { self.new ≡ kept_after self.old (Some (Key false key)) }
    {
        if !is_among(self.keys.as_slice(), key) {
            return false;
        }
        let place = place_of(self.keys.as_slice(), key);
        self.keys.remove(place);
        true
    }

    /// A pointer event always passes. From now on it is the last one.
    fn point(&mut self, mask: u8, x: u16, y: u16)
        ensures { self.new ≡ record self.old { mask = mask; x = x; y = y } }
    {
        self.mask = mask;
        self.x = x;
        self.y = y;
    }

    /// Whether a message of a viewer of this role passes to the host, and what is held after it. It takes no memory.
    ///
    /// For a viewer in full control these pass, in order: each pointer event, each text that was kept, the press of a
    /// key that is down already or while fewer than 64 keys are down, and the release of a key that is down. Nothing of
    /// a view-only viewer passes.
    pub fn passes(&mut self, role: Role, message: &ClientMessage) -> bool
        ensures value { result ≡ passes_if self.old.keys (input_for role (message_of message.now)) }
        ensures kept { self.new ≡ kept_after self.old (input_for role (message_of message.now)) }
        ensures stands { (messages : List client.ClientMessage) → HeldStands role self.old messages
            → HeldStands role self.new (messages ++ message_of message.now ∷ []) }
        ensures allowed { (messages : List client.ClientMessage) → HeldStands role self.old messages
            → allowed role (messages ++ message_of message.now ∷ []) false
            ≡ allowed role messages false
            ++ passed_if result (input_for role (message_of message.now)) }
    {
        match role {
            Role::View => false,
            Role::Full => self.passes_message(message),
        }
    }

    /// Whether an input passes. It also notes what is held after that input. The press of a key passes where the key is
    /// down already or fewer than 64 keys are down, the release of a key where the key is down, and each pointer event
    /// and each text. It takes no memory.
    pub(crate) fn passes_input(&mut self, input: &Input) -> bool
        ensures value { result ≡ passes self.old.keys (input_in input.now) }
        ensures kept { self.new ≡ kept_after self.old (Some (input_in input.now)) }
    {
        match input {
            Input::Key { down: true, key } => self.press(*key),
            Input::Key { down: false, key } => self.lift(*key),
            Input::Pointer { mask, x, y } => {
                self.point(*mask, *x, *y);
                true
            }
            Input::Cut(_) => true,
        }
    }

    /// Whether a key or a button is down.
    pub(crate) fn is_holding(&self) -> bool
        ensures { result ≡ is_holding self.now }
    {
        !self.keys.is_empty() || self.mask != 0
    }

    /// What `passes` answers and keeps for a viewer in full control.
    fn passes_message(&mut self, message: &ClientMessage) -> bool
        ensures value { result ≡ passes_if self.old.keys (input_of (message_of message.now)) }
        ensures kept { self.new ≡ kept_after self.old (input_of (message_of message.now)) }
    {
        match message {
            ClientMessage::Key { down: true, key } => self.press(*key),
            ClientMessage::Key { down: false, key } => self.lift(*key),
            ClientMessage::Pointer { mask, x, y } => {
                self.point(*mask, *x, *y);
                true
            }
            ClientMessage::Cut(_) => true,
            ClientMessage::Format(_)
            | ClientMessage::Encodings(_)
            | ClientMessage::Ask { .. }
            | ClientMessage::CutLost(_) => false,
        }
    }

    /// How many releases follow where the viewer leaves: at most one for each of 64 keys, and one pointer event.
    pub fn releases(&self) -> usize
        ensures value { result ≡ length (left_in self.now) }
        ensures most { result ≤ 65 }
    {
        let keys = self.keys.len();
        match self.mask {
            0 => keys,
            _ => keys + 1,
        }
    }

    /// The next release of a viewer that has left: one of each key that is down, by rising number, and then mask 0 at
    /// the last position if the last mask wasn't 0. After the last release it answers `None` and changes nothing. It
    /// takes no memory.
    pub fn release(&mut self) -> Option<Input>
        ensures next { MatchOption result ((left_in self.old ≡ []) × (self.new ≡ self.old))
            (λ input. left_in self.old ≡ input_in input ∷ left_in self.new) }
    {
        if !self.keys.is_empty() {
            let key = self.keys.remove(0);
            return Some(Input::Key { down: false, key });
        }
        if self.mask == 0 {
            return None;
        }
        self.mask = 0;
        Some(Input::Pointer {
            mask: 0,
            x: self.x,
            y: self.y,
        })
    }
}
