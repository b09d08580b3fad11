//! What is said to a viewer that isn't let in.

ghost use Rattle.std.specs.Prelude.{◌≡◌, ℕ, List, Option, codes};
ghost use Rattle.byte_reading.specs.Reading.{Faulty, after};
ghost use Rattle.fault.specs.declared.kinds.Fault.TheVariants.{HostRefused};
ghost use Rattle.rfb_wire.specs.Handshake.{host_hello};
ghost use Rattle.connections.specs.Keys.{failed_for};

/// What is said where all places are taken: a handshake of version 3.8 that offers no security type, and the reason
/// (RFC 6143, 7.1.1 and 7.1.2). It is the same whatever the viewer says, so it can be said at once.
pub fn refusal_bytes() -> [u8; 37]
    ensures { (password : Option (List ℕ))
        → after (host_hello password) result ≡ Faulty (HostRefused (codes "all places are taken")) }
{
    *b"RFB 003.008\n\0\0\0\0\x14all places are taken"
}

/// What a newcomer is sent that comes before there is a host.
pub fn no_host_bytes() -> [u8; 28]
    ensures { (password : Option (List ℕ))
        → after (host_hello password) result ≡ Faulty (HostRefused (codes "no host yet")) }
{
    *b"RFB 003.008\n\0\0\0\0\x0Bno host yet"
}

/// What a newcomer is sent that comes while an operator lets no viewer in.
pub fn no_entry_bytes() -> [u8; 36]
    ensures { (password : Option (List ℕ))
        → after (host_hello password) result ≡ Faulty (HostRefused (codes "no viewer is let in")) }
{
    *b"RFB 003.008\n\0\0\0\0\x13no viewer is let in"
}

/// What a newcomer to a locked port is told once it has answered, where its answer is wrong: SecurityResult 1, and the
/// reason (RFC 6143, 7.1.3).
pub(crate) fn wrong_password_bytes() -> [u8; 22]
    ensures { result ≡ failed_for (codes "wrong password") }
{
    *b"\0\0\0\x01\0\0\0\x0Ewrong password"
}

/// What it is told where the answer is right and all places are taken.
pub(crate) fn taken_bytes() -> [u8; 28]
    ensures { result ≡ failed_for (codes "all places are taken") }
{
    *b"\0\0\0\x01\0\0\0\x14all places are taken"
}

/// What it is told where the answer is right and there is no host yet.
pub(crate) fn hostless_bytes() -> [u8; 19]
    ensures { result ≡ failed_for (codes "no host yet") }
{
    *b"\0\0\0\x01\0\0\0\x0Bno host yet"
}

/// What it is told where the answer is right and an operator lets no viewer in.
pub(crate) fn shut_bytes() -> [u8; 27]
    ensures { result ≡ failed_for (codes "no viewer is let in") }
{
    *b"\0\0\0\x01\0\0\0\x13no viewer is let in"
}
