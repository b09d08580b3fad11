//! A law about hosts that ask for a password.

ghost use Rattle.std.specs.Prelude.{◌≡◌, ℕ, Some, None, List, []};
ghost use Rattle.rfb_wire.specs.Handshake.{answer_to, asked_in, chosen_in, host_hello, said_to_host};

/// A password is used for a challenge only, and a challenge is asked only of those who have one.
pub fn password_is_used_for_a_challenge_only()
    // As long as no challenge was read, the same is said with each two passwords.
    ensures unasked { (one other stream : List ℕ) → asked_in (Some one) stream ≡ []
        → said_to_host (Some one) stream ≡ said_to_host (Some other) stream }
    // After a challenge they make no other difference than by the answer.
    ensures answered { (one other stream : List ℕ)
        → answer_to (asked_in (Some one) stream) (Some one)
        ≡ answer_to (asked_in (Some one) stream) (Some other)
        → said_to_host (Some one) stream ≡ said_to_host (Some other) stream }
    // The same is read with each two passwords.
    ensures read { (one other : List ℕ) → host_hello (Some one) ≡ host_hello (Some other) }
    // A host that offers None is told what it is told by one who has no password.
    ensures offered { (password stream : List ℕ) → chosen_in None stream ≡ Some 1
        → said_to_host (Some password) stream ≡ said_to_host None stream }
    // Without a password no challenge is read.
    ensures without { (stream : List ℕ) → asked_in None stream ≡ [] }
{}
