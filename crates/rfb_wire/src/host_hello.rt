//! A host's handshake, of which the reflector is the client (RFC 6143, 7.1 to 7.3).

use crate::host_talk::HostTalk;
use crate::joined::Joined;
use fault::Fault;
use std::marker::Model;
use vnc_auth::Password;

/// A host's handshake in mid-course: what has come of it, and what is to be said to it. It takes no memory.
///
/// Any version from 3.8 on is accepted, and answered by 3.8. Security type None is chosen wherever it stands in the
/// host's list. Where it isn't there, VNC Authentication is, if there is a password; so a host that asks for none is
/// never told what was made of it. A shared session is asked for. The host's own pixel format is ignored. The first 255
/// bytes of its name are kept. After a fault no byte is taken, each feed answers the same fault, and there is nothing
/// to say.
#[derive(Drop)]
pub struct HostHello {
    talk: HostTalk,
}

impl Model for HostHello {
    ghost use Rattle.rfb_wire.specs.declared.host_talk.HostTalk as code;
    ghost use Rattle.rfb_wire.specs.Joining.{IsSound};

    ghost Value = { code.HostTalk };

    ghost view = { λ r. r.talk };

    ghost invariant = { λ r. IsSound r.talk };
}

impl HostHello {
    ghost use Rattle.std.specs.Prelude.{◌≡◌, ◌≤◌, ◌+◌, ℕ, List, [], ◌++◌, None, length, take, drop, option_map, MatchResult};
    ghost use Rattle.byte_reading.specs.Reading.{Feeds, taken, fault_of, whole_of};
    ghost use Rattle.rfb_wire.specs.Handshake.{host_hello, said_to_host};
    ghost use Rattle.rfb_wire.specs.Joining.{ahead, to_send, HasHeard, IsSameTalk};

    /// A handshake of which nothing has come, with a host that has this password, if it is known.
    pub fn new(password: Option<Password>) -> HostHello
        ensures ahead { ahead result ≡ host_hello password }
        ensures password { result.password ≡ password }
        ensures heard { HasHeard result [] }
        ensures sent { result.sent ≡ 0 }
    {
        HostHello {
            talk: HostTalk::new(password),
        }
    }

    /// What is answered once this many bytes were used.
    fn so_far(&self, used: usize) -> Result<usize, Fault>
        ensures { MatchResult result (λ n. (n ≡ used) × (fault_of (ahead self.now) ≡ None))
            (λ fault. fault_of (ahead self.now) ≡ Some fault) }
    {
        match self.talk.fault() {
            Some(fault) => Err(fault),
            None => Ok(used),
        }
    }

    /// Takes the host's bytes up to the end of its handshake, and answers how many they are.
    ///
    /// `BadVersion`, `HostRefused`, `NoNone`, `SecurityFailed` and `BadScreen` are answered as soon as the byte that
    /// shows them has come.
    pub fn feed(&mut self, piece: &[u8]) -> Result<usize, Fault>
        ensures reads { Feeds (ahead self.old) (ahead self.new) piece.now result }
        ensures heard { (stream : List ℕ) → HasHeard self.old stream
            → HasHeard self.new (stream ++ take (taken (ahead self.old) piece.now) piece.now) }
        ensures same { IsSameTalk self.old self.new }
    {
        for (used, byte) in piece.iter().enumerate() {
            if !self.talk.wants_more() {
                return self.so_far(used);
            }
            self.talk.step(*byte);
        }
        self.so_far(piece.len())
    }

    /// What is to be sent to the host next. There is nothing after a fault.
    pub fn out(&self) -> &[u8]
        ensures value { result.now ≡ to_send self.now }
        ensures said { (stream : List ℕ) → HasHeard self.now stream
            → fault_of (ahead self.now) ≡ None
            → result.now ≡ drop self.now.sent (said_to_host self.now.password stream) }
    {
        if self.talk.fault().is_some() {
            return &[];
        }
        &self.talk.said.as_slice()[self.talk.sent..]
    }

    /// This many bytes of `out` have been sent.
    pub fn sent(&mut self, count: usize)
        requires { count ≤ length (to_send self.old) }
        ensures { self.new ≡ record self.old { sent = self.old.sent + count } }
    {
        self.talk.sent += count;
    }

    /// What the host told, where its side of the handshake is whole. What there is to send may still be unsent.
    pub fn done(&self) -> Option<Joined>
        ensures { result ≡ whole_of (ahead self.now) }
    {
        self.talk.joined()
    }
}
