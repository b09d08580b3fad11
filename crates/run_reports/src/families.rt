//! Families of numbers, as Prometheus reads them: a head that says what each is, and a line for each number.

ghost use Rattle.std.specs.Prelude.{◌≡◌, [], OnOk};
ghost use Rattle.std.specs.String.{string_bytes};
ghost use Rattle.run_reports.specs.Metrics.{after_by_role, after_head, after_sample, after_single};

use crate::counters::ByRole;
use itoa::Buffer;
use std::alloc::AllocError;

/// What a family is: its name behind `reflectord_`, whether it is a `gauge`, a `counter` or a `summary`, and a sentence
/// that has neither a backslash nor a line feed.
#[derive(Clone, Copy)]
pub(crate) struct Family<'a> {
    pub(crate) name: &'a str,
    pub(crate) kind: &'a str,
    pub(crate) help: &'a str,
}

/// Puts the head of a family, which says what it is.
pub(crate) fn put_head(text: &mut String, family: Family<'_>) -> Result<(), AllocError>
    ensures { OnOk result
        (string_bytes text.new ≡ after_head (string_bytes text.old) family.entry) }
{
    text.push_str("# HELP reflectord_")?;
    text.push_str(family.name)?;
    text.push_str(" ")?;
    text.push_str(family.help)?;
    text.push_str("\n# TYPE reflectord_")?;
    text.push_str(family.name)?;
    text.push_str(" ")?;
    text.push_str(family.kind)?;
    text.push_str("\n")
}

/// Puts the line of a number, with this name and these labels.
pub(crate) fn put_sample(
    text: &mut String,
    name: &str,
    labels: &str,
    number: u64,
) -> Result<(), AllocError>
    ensures { OnOk result
        (string_bytes text.new ≡ after_sample (string_bytes text.old) name.now labels.now number) }
{
    text.push_str("reflectord_")?;
    text.push_str(name)?;
    text.push_str(labels)?;
    text.push_str(" ")?;
    text.push_str(Buffer::new().format(number))?;
    text.push_str("\n")
}

/// Puts a family of one number.
pub(crate) fn put_single(
    text: &mut String,
    family: Family<'_>,
    number: u64,
) -> Result<(), AllocError>
    ensures { OnOk result
        (string_bytes text.new ≡ after_single (string_bytes text.old) family.entry number) }
{
    put_head(text, family)?;
    put_sample(text, family.name, "", number)
}

/// Puts a family of a number for each role.
pub(crate) fn put_by_role(
    text: &mut String,
    family: Family<'_>,
    numbers: ByRole,
) -> Result<(), AllocError>
    ensures { OnOk result
        (string_bytes text.new ≡ after_by_role (string_bytes text.old) family.entry numbers) }
{
    put_head(text, family)?;
    put_sample(text, family.name, "{role=\"full\"}", numbers.full)?;
    put_sample(text, family.name, "{role=\"view\"}", numbers.view)
}
