//! What is being said to the host, and how far it is given.

ghost use Rattle.std.specs.Prelude.{◌≡◌, ◌↔◌, ◌+◌, ◌<◌, ◌≤◌, [], ◌++◌, IsTrue, if◌then◌else◌, length, take};
ghost use Rattle.raster.specs.Size.{IsScreenSize};
ghost use Rattle.rfb_wire.specs.ClientMessage.{longest_text};
ghost use Rattle.roles.specs.Held.{input_in};
ghost use Rattle.roles.specs.Spelling.{input_bytes};
ghost use Rattle.host_writer.specs.Saying.{begun, left_of, text_in};
ghost use Rattle.host_writer.specs.Writing.{whole_request};

use raster::Rect;
use rfb_wire::{Text, write_client_text_head, write_key, write_pointer, write_request};
use roles::Input;
use std::marker::Model;

/// How many bytes a request has (RFC 6143, 7.5.3). A KeyEvent, a PointerEvent and the header of a text have fewer.
pub(crate) const REQUEST_LEN: usize = 10;

/// A spelling, which is given without a copy of its text: its first bytes are here, and behind them come those of the
/// text, if it has one. Contracts see the whole spelling, and how many of its bytes were given.
#[derive(Drop)]
pub(crate) struct Saying {
    head: [u8; REQUEST_LEN],
    len: usize,
    text: Option<Text>,
    given: usize,
}

impl Model for Saying {
    ghost use Rattle.std.specs.Prelude.{◌+◌, ◌++◌, ◌≤◌, length, take};
    ghost use Rattle.rfb_wire.specs.ClientMessage.{longest_text};
    ghost use Rattle.host_writer.specs.Saying.{Speech, text_in};

    ghost Value = { Speech };

    ghost view = { λ s. record { said = take s.len s.head ++ text_in s.text; given = s.given } };

    ghost invariant = { λ s. (s.len ≤ length s.head) × (length (text_in s.text) ≤ longest_text)
        × (s.given ≤ s.len + length (text_in s.text)) };
}

/// The bytes of a text, if there is one.
fn text_bytes(text: &Option<Text>) -> &[u8]
    ensures { result.now ≡ text_in text.now }
{
    match text {
        Some(text) => text.as_slice(),
        None => &[],
    }
}

/// One incremental request of the whole screen.
pub(crate) fn request_of(width: u64, height: u64) -> [u8; REQUEST_LEN]
    requires { IsScreenSize width height }
    ensures { result ≡ whole_request width height }
{
    let screen = Rect {
        x: 0,
        y: 0,
        w: width,
        h: height,
    };
    let mut request = [0; REQUEST_LEN];
    write_request(true, &screen, &mut request);
    request
}

impl Saying {
    /// Nothing is said.
    pub(crate) fn nothing() -> Self
        ensures { result ≡ begun [] }
    {
        Saying::of_head([0; REQUEST_LEN], 0, None)
    }

    /// This request is to be said, or nothing.
    pub(crate) fn of_request(request: &[u8; REQUEST_LEN], is_asked: bool) -> Self
        ensures { result ≡ begun (if is_asked then request.now else []) }
    {
        if is_asked {
            Saying::of_head(*request, REQUEST_LEN, None)
        } else {
            Saying::nothing()
        }
    }

    /// This input is to be said, or nothing.
    pub(crate) fn of_input(input: Input, is_told: bool) -> Self
        ensures { result ≡ begun (if is_told then input_bytes (input_in input) else []) }
    {
        if is_told {
            Saying::of_spelling(input)
        } else {
            Saying::nothing()
        }
    }

    /// The spelling of this input is to be said.
    fn of_spelling(input: Input) -> Self
        ensures { result ≡ begun (input_bytes (input_in input)) }
    {
        let mut head = [0; REQUEST_LEN];
        match input {
            Input::Key { down, key } => {
                let len = write_key(down, key, &mut head);
                Saying::of_head(head, len, None)
            }
            Input::Pointer { mask, x, y } => {
                let len = write_pointer(mask, x, y, &mut head);
                Saying::of_head(head, len, None)
            }
            Input::Cut(text) => {
                let len = write_client_text_head(text.as_slice().len() as u32, &mut head);
                Saying::of_head(head, len, Some(text))
            }
        }
    }

    /// The first `len` bytes of a head are to be said, and then a text, if there is one.
    fn of_head(head: [u8; REQUEST_LEN], len: usize, text: Option<Text>) -> Self
        requires within { len ≤ length head }
        requires short { length (text_in text) ≤ longest_text }
        ensures { result ≡ begun (take len head ++ text_in text) }
    {
        Saying {
            head,
            len,
            text,
            given: 0,
        }
    }

    /// Whether a byte was given.
    pub(crate) fn is_begun(&self) -> bool
        ensures { IsTrue result ↔ (0 < self.now.given) }
    {
        self.given > 0
    }

    /// The bytes that are given next, from the front of what is left: at least one, unless nothing is left.
    pub(crate) fn front(&self) -> &[u8]
        ensures value { result.now ≡ take (length result.now) (left_of self.now) }
        ensures some { length result.now ≡ 0 → left_of self.now ≡ [] }
        ensures within { self.now.given + length result.now ≤ length self.now.said }
    {
        let (head, _) = self.head.split_at(self.len);
        if self.given < self.len {
            let (_, left) = head.split_at(self.given);
            return left;
        }
        let (_, left) = text_bytes(&self.text).split_at(self.given - self.len);
        left
    }

    /// This many bytes more were given.
    pub(crate) fn go_on(&mut self, count: usize)
        requires { self.old.given + count ≤ length self.old.said }
        ensures { self.new ≡ record self.old { given = self.old.given + count } }
    {
        self.given += count;
    }
}
