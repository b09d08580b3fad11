//! The reason that a host gives for refusing.

ghost use Rattle.std.specs.Prelude.{◌≡◌, ◌≤◌, length};
ghost use Rattle.fault.specs.declared.reason.TheConstants.{LONGEST_REASON};

use std::marker::Model;

/// How many bytes of a reason are kept.
pub const LONGEST_REASON: usize = 255;

/// The first bytes of a host's reason (RFC 6143, section 7.1.2). It is plain data, so a fault that holds it is plain
/// data, too.
#[derive(Clone, Copy, Debug)]
pub struct Reason {
    bytes: [u8; LONGEST_REASON],
    len: u8,
}

impl Model for Reason {
    ghost use Rattle.std.specs.Prelude.{ℕ, ◌≡◌, ◌≤◌, ◌-◌, ◌++◌, List, length, take, replicate};
    ghost use Rattle.fault.specs.declared.reason.TheConstants.{LONGEST_REASON};

    ghost Value = { List ℕ };

    ghost view = { λ r. take r.len r.bytes };

    // The bytes after the reason are zero, so that equal reasons are equal data.
    ghost invariant = { λ r. (r.len ≡ length (take r.len r.bytes))
        × (r.bytes ≡ take r.len r.bytes ++ replicate (LONGEST_REASON - r.len) 0) };

    ghost inverse = { λ reason. record {
      bytes = reason ++ replicate (LONGEST_REASON - length reason) 0;
      len = length reason;
    } };

    ghost use Rattle.std.proofs.Common.{arith};

    ghost inverse_ok = { λ a h. Prim.grind arith };
}

impl Reason {
    /// The reason of these bytes.
    pub fn new(bytes: &[u8]) -> Reason
        requires { length bytes.now ≤ LONGEST_REASON }
        ensures { result ≡ bytes.now }
    {
        let mut kept = [0; LONGEST_REASON];
        kept[..bytes.len()].copy_from_slice(bytes);
        Reason {
            bytes: kept,
            len: bytes.len() as u8,
        }
    }

    /// The bytes that were kept of the reason.
    pub fn as_slice(&self) -> &[u8]
        ensures { result.now ≡ self.now }
    {
        &self.bytes[..usize::from(self.len)]
    }

    /// How many bytes it has: at most `LONGEST_REASON`.
    pub fn len(&self) -> usize
        ensures value { result ≡ length self.now }
        ensures most { result ≤ LONGEST_REASON }
    {
        usize::from(self.len)
    }
}
