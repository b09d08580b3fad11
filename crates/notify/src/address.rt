//! The address at which systemd hears of a service.

ghost use Rattle.std.specs.Prelude.{◌≡◌, ◌+◌, ◌≤◌, ◌<◌, ◌∷◌, ℕ, List, IfSome, IsNone, length};
ghost use Rattle.mio.specs.SockAddr as spec;
ghost use Rattle.notify.specs.Addresses.{IsAddressOf};

use libc::net as c;

/// The most bytes of a path or of an abstract name, without the zero after or before it (unix(7)).
const LONGEST: usize = 107;

fn put(raw: &mut [u8; c::_SS_SIZE], at: usize, bytes: &[u8])
    requires { at + length bytes.now ≤ 128 }
    ensures { raw.new ≡ spec.put raw.old at bytes.now }
{
    raw[at..at + bytes.len()].copy_from_slice(bytes);
}

/// The bytes of C's `sockaddr_un`: a path with a zero after it, or an abstract name with one before it.
fn encode(name: &[u8], is_abstract: bool) -> Option<([u8; c::_SS_SIZE], u32)>
    ensures bytes { IfSome result (λ r. r ≡ spec.sockaddr_un name.now is_abstract) }
    ensures len { IfSome result (λ r. r.1 ≤ 110) }
    ensures none { IsNone result → 107 < length name.now }
{
    if name.len() > LONGEST {
        return None;
    }
    let mut raw = [0u8; c::_SS_SIZE];
    put(&mut raw, 0, &(c::AF_UNIX as u16).to_ne_bytes());
    put(&mut raw, if is_abstract { 3 } else { 2 }, name);
    Some((raw, name.len() as u32 + 3))
}

/// The address in systemd's text, as the bytes of C's `sockaddr_un` and how many of them count: a path from the root,
/// or an abstract name after an `@` (sd_notify(3)). It is `None` where the text has no address, or one that is too
/// long.
pub fn address_of(text: &str) -> Option<([u8; c::_SS_SIZE], u32)>
    ensures address { IfSome result (λ r. IsAddressOf text.now r) }
    ensures len { IfSome result (λ r. r.1 ≤ 110) }
    ensures none { IsNone result → (address : List ℕ × ℕ) → IsAddressOf text.now address
        → 110 < address.1 }
{
    let bytes = text.as_bytes();
    let (first, rest) = bytes.split_first()?;
    match first {
        b'@' => encode(rest, true),
        b'/' => encode(bytes, false),
        _ => None,
    }
}
