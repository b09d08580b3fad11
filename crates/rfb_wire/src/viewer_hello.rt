//! A viewer's handshake, of which the reflector is the server (RFC 6143, 7.1 to 7.3).

ghost use Rattle.std.specs.Prelude.{◌≡◌, ◌≤◌, ◌+◌, [], ◌++◌, length, take, drop, ◌∷◌, true, is_some, MatchResult};
ghost use Rattle.byte_reading.specs.Reading.{Feeds, step, taken, wants_more, fault_of, whole_of};
ghost use Rattle.rfb_wire.specs.declared.viewer_hello.TheConstants.{LONGEST_HANDSHAKE, VIEWER_LEN};
ghost use Rattle.rfb_wire.specs.declared.write.TheConstants.{BEFORE_NAME_LEN};
ghost use Rattle.rfb_wire.specs.Greeting.{Greeting, IsPrepared, due, ahead, to_send};

use crate::security_type::NONE;
use crate::version::{VERSION, VERSION_LEN};
use crate::write::{BEFORE_INIT_LEN, BEFORE_NAME_LEN, write_handshake};
use arrayvec::ArrayVec;
use fault::Fault;
use std::marker::Model;

/// How many bytes a viewer says: its version, its choice of a security type, and the shared-flag (RFC 6143, 7.1.1,
/// 7.1.2 and 7.3.1).
const VIEWER_LEN: usize = 14;

/// How many bytes are said to a viewer before it chooses a security type: the version, and the one type after their
/// number (RFC 6143, 7.1.1 and 7.1.2).
const BEFORE_CHOICE_LEN: usize = 14;

/// The most bytes that are said to a viewer: those before the name, and a name of 255 bytes.
const LONGEST_HANDSHAKE: usize = 297;

/// How many of the `all` bytes that a handshake says must have been said once this many bytes have come.
fn due(all: usize, taken: usize) -> usize
    ensures { result ≡ due all taken }
{
    match taken {
        0..=11 => VERSION_LEN,
        12 => BEFORE_CHOICE_LEN,
        13 => BEFORE_INIT_LEN,
        _ => all,
    }
}

/// A viewer's handshake in mid-course: what has come of it, and what is to be said to it. It takes no memory.
///
/// The viewer is told of a screen and a name. Its version has to be 3.8, and its choice security type None. Its
/// shared-flag is ignored. After a fault no byte is taken, each feed answers the same fault, and there is nothing to
/// say.
#[derive(Drop)]
pub struct ViewerHello {
    w: u16,
    h: u16,
    /// What is said in a whole handshake, one answer after the other.
    said: ArrayVec<u8, LONGEST_HANDSHAKE>,
    /// The bytes of the viewer that have come.
    begun: ArrayVec<u8, VIEWER_LEN>,
    sent: usize,
}

impl Model for ViewerHello {
    ghost Value = { Greeting };

    ghost view = { λ r. record {
      w = r.w;
      h = r.h;
      name = drop BEFORE_NAME_LEN r.said.items;
      begun = r.begun.items;
      sent = r.sent;
    } };

    ghost invariant = { λ r. IsPrepared r.w r.h r.said.items
        × (length r.said.items ≤ LONGEST_HANDSHAKE) × (length r.begun.items ≤ VIEWER_LEN)
        × (r.sent ≤ due (length r.said.items) (length r.begun.items)) };
}

impl ViewerHello {
    /// A handshake that is to tell of a screen of this size in pixels, 1 to 4096 each way, under this name of 1 to 255
    /// bytes.
    pub fn new(w: u64, h: u64, name: &[u8]) -> ViewerHello
        requires across { 1 ≤ w }
        requires most_across { w ≤ 4096 }
        requires down { 1 ≤ h }
        requires most_down { h ≤ 4096 }
        requires named { 1 ≤ length name.now }
        requires short { length name.now ≤ 255 }
        ensures { result ≡ record { w = w; h = h; name = name.now; begun = []; sent = 0 } }
    {
        let mut bytes = [0; LONGEST_HANDSHAKE];
        let len = write_handshake(w as u16, h as u16, name, &mut bytes);
        let mut said = ArrayVec::new();
        // There is room for a handshake with the longest name.
        let _ = said.try_extend_from_slice(&bytes[..len]);
        ViewerHello {
            w: w as u16,
            h: h as u16,
            said,
            begun: ArrayVec::new(),
            sent: 0,
        }
    }

    /// The fault at which it stands, if there is one. A fault is final.
    pub fn fault(&self) -> Option<Fault>
        ensures { result ≡ fault_of (ahead self.now) }
    {
        let begun = self.begun.as_slice();
        if begun.len() >= VERSION_LEN && !begun.starts_with(&VERSION) {
            Some(Fault::BadVersion)
        } else if begun.len() > VERSION_LEN && begun[VERSION_LEN] != NONE {
            Some(Fault::BadChoice)
        } else {
            None
        }
    }

    /// Whether another byte of the viewer's side is to come.
    pub fn wants_more(&self) -> bool
        ensures { result ≡ wants_more (ahead self.now) }
    {
        !self.begun.is_full() && self.fault().is_none()
    }

    /// What is answered once this many bytes were used.
    fn so_far(&self, used: usize) -> Result<usize, Fault>
        ensures { MatchResult result (λ n. (n ≡ used) × (fault_of (ahead self.now) ≡ None))
            (λ fault. fault_of (ahead self.now) ≡ Some fault) }
    {
        match self.fault() {
            Some(fault) => Err(fault),
            None => Ok(used),
        }
    }

    /// Takes the next byte of the viewer.
    fn step(&mut self, byte: u8)
        requires { wants_more (ahead self.old) ≡ true }
        ensures { self.new ≡ record self.old { begun = self.old.begun ++ byte ∷ [] } }
    {
        self.begun.push(byte);
    }

    /// Takes the viewer's bytes up to the end of its handshake, and answers how many they are.
    ///
    /// `BadVersion` and `BadChoice` are answered as soon as the byte that shows them has come.
    pub fn feed(&mut self, piece: &[u8]) -> Result<usize, Fault>
        ensures reads { Feeds (ahead self.old) (ahead self.new) piece.now result }
        ensures after { self.new ≡ record self.old {
          begun = self.old.begun ++ take (taken (ahead self.old) piece.now) piece.now;
        } }
    {
        for (used, byte) in piece.iter().enumerate() {
            if !self.wants_more() {
                return self.so_far(used);
            }
            self.step(*byte);
        }
        self.so_far(piece.len())
    }

    /// What is to be sent to the viewer next. There is nothing after a fault.
    pub fn out(&self) -> &[u8]
        ensures { result.now ≡ to_send self.now }
    {
        if self.fault().is_some() {
            return &[];
        }
        let said = self.said.as_slice();
        &said[self.sent..due(said.len(), self.begun.len())]
    }

    /// This many bytes of `out` have been sent.
    pub fn sent(&mut self, count: usize)
        requires { count ≤ length (to_send self.old) }
        ensures { self.new ≡ record self.old { sent = self.old.sent + count } }
    {
        self.sent += count;
    }

    /// Whether the viewer's side of the handshake is whole. What there is to send may still be unsent.
    pub fn done(&self) -> bool
        ensures { result ≡ is_some (whole_of (ahead self.now)) }
    {
        self.begun.is_full() && self.fault().is_none()
    }
}
