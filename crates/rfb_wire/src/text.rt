//! Cut texts.

ghost use Rattle.std.specs.Prelude.{◌≡◌, ◌≤◌, length};
ghost use Rattle.fault.specs.declared.limits.TheConstants.{LONGEST_TEXT};

use std::marker::Model;

/// A cut text: at most 65,536 bytes of Latin-1, which are carried unchanged (RFC 6143, 7.5.6 and 7.6.4).
/// Contracts see it as the list of its bytes.
#[derive(Drop)]
pub struct Text {
    bytes: Vec<u8>,
}

impl Model for Text {
    ghost use Rattle.std.specs.Prelude.{List, ℕ, ◌≤◌, length};
    ghost use Rattle.fault.specs.declared.limits.TheConstants.{LONGEST_TEXT};

    ghost Value = { List ℕ };

    ghost view = { λ t. t.bytes.items };

    ghost invariant = { λ t. length t.bytes.items ≤ LONGEST_TEXT };
}

impl Text {
    /// The text of these bytes. It takes no memory.
    pub fn from_vec(bytes: Vec<u8>) -> Text
        requires { length bytes.items ≤ LONGEST_TEXT }
        ensures { result ≡ bytes.items }
    {
        Text { bytes }
    }

    /// Its bytes, given back without taking memory.
    pub fn into_vec(self) -> Vec<u8>
        ensures value { result.items ≡ self }
        ensures short { length result.items ≤ LONGEST_TEXT }
    {
        let Text { bytes } = self;
        bytes
    }

    /// The bytes of the text.
    pub fn as_slice(&self) -> &[u8]
        ensures value { result.now ≡ self.now }
        ensures short { length result.now ≤ LONGEST_TEXT }
    {
        self.bytes.as_slice()
    }
}
