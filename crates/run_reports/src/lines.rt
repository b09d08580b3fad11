//! Parts of which the lines are put together that say how a run stands.

ghost use Rattle.std.specs.Prelude.{◌≡◌, ◌++◌, OnOk};
ghost use Rattle.std.specs.String.{string_bytes};
ghost use Rattle.std.specs.Fmt.{decimal};
ghost use Rattle.run_reports.specs.State.{entry_word, recording_word, role_word, yes_word};

use crate::report::RecordingState;
use itoa::Buffer;
use roles::Role;
use run_control::Entry;
use std::alloc::AllocError;

/// `open`, `drained` or `closed`.
pub(crate) fn entry_word(entry: Entry) -> &'static str
    ensures { result.now ≡ entry_word entry }
{
    match entry {
        Entry::Open => "open",
        Entry::Drained => "drained",
        Entry::Closed => "closed",
    }
}

/// `full` or `view`.
pub(crate) fn role_word(role: Role) -> &'static str
    ensures { result.now ≡ role_word role }
{
    match role {
        Role::Full => "full",
        Role::View => "view",
    }
}

/// `awaited`, `on`, `ended` or `failed`.
pub(crate) fn recording_word(state: RecordingState) -> &'static str
    ensures { result.now ≡ recording_word state }
{
    match state {
        RecordingState::Awaited => "awaited",
        RecordingState::On => "on",
        RecordingState::Ended => "ended",
        RecordingState::Failed => "failed",
    }
}

/// `yes` or `no`.
pub(crate) fn yes_word(is: bool) -> &'static str
    ensures { result.now ≡ yes_word is }
{
    if is { "yes" } else { "no" }
}

/// Puts the text that goes before a word, and then the word.
pub(crate) fn put_word(text: &mut String, before: &str, word: &str) -> Result<(), AllocError>
    ensures { OnOk result
        (string_bytes text.new ≡ string_bytes text.old ++ before.now ++ word.now) }
{
    text.push_str(before)?;
    text.push_str(word)
}

/// Puts the text that goes before a number, and then the number.
pub(crate) fn put_number(text: &mut String, before: &str, number: u64) -> Result<(), AllocError>
    ensures { OnOk result
        (string_bytes text.new ≡ string_bytes text.old ++ before.now ++ decimal number) }
{
    text.push_str(before)?;
    text.push_str(Buffer::new().format(number))
}
