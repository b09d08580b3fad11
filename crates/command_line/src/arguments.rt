//! The kinds of options: which values each takes.

ghost use Rattle.std.specs.Prelude.{◌≡◌, false};
ghost use Rattle.clap.specs.Words.{rule_of};
ghost use Rattle.command_line.specs.Serve.{flag as flag_rule, further as further_rule, option as option_rule, pause as pause_rule};
ghost use Rattle.command_line.specs.Serve.{places as places_rule, port as port_rule, repeated as repeated_rule, seconds as seconds_rule, web_port as web_port_rule};

use clap::{Arg, ArgAction, value_parser};
use std::alloc::Global;

/// The port of one role of viewers.
pub(crate) fn port<'a>(alloc: Global, name: &'a str, default: &'a str, help: &'a str) -> Arg<'a>
    ensures rule { rule_of result ≡ port_rule name.entry.now default.entry.now }
    ensures local { result.global ≡ false }
{
    option(alloc, name, "PORT", help)
        .value_parser(value_parser!(u16).range(1..))
        .default_value(default)
}

/// How many viewers of one role there may be at once.
pub(crate) fn places<'a>(alloc: Global, name: &'a str, help: &'a str) -> Arg<'a>
    ensures rule { rule_of result ≡ places_rule name.entry.now }
    ensures local { result.global ≡ false }
{
    option(alloc, name, "N", help)
        .value_parser(value_parser!(u64).range(1..=32))
        .default_value("4")
}

/// How many seconds to wait, if at all.
pub(crate) fn pause<'a>(alloc: Global, name: &'a str, help: &'a str) -> Arg<'a>
    ensures rule { rule_of result ≡ pause_rule name.entry.now }
    ensures local { result.global ≡ false }
{
    option(alloc, name, "SECONDS", help).value_parser(value_parser!(u64).range(1..=3600))
}

/// How many seconds something may last.
pub(crate) fn seconds<'a>(alloc: Global, name: &'a str, help: &'a str) -> Arg<'a>
    ensures rule { rule_of result ≡ seconds_rule name.entry.now }
    ensures local { result.global ≡ false }
{
    option(alloc, name, "SECONDS", help)
        .value_parser(value_parser!(u64).range(10..=600))
        .default_value("60")
}

/// The port of browsers of one role, if there is to be one.
pub(crate) fn web_port<'a>(alloc: Global, name: &'a str, help: &'a str) -> Arg<'a>
    ensures rule { rule_of result ≡ web_port_rule name.entry.now }
    ensures local { result.global ≡ false }
{
    option(alloc, name, "PORT", help).value_parser(value_parser!(u16).range(1..))
}

/// An option that takes one value each time that it is given.
pub(crate) fn repeated<'a>(
    alloc: Global,
    name: &'a str,
    value_name: &'a str,
    help: &'a str,
) -> Arg<'a>
    ensures rule { rule_of result ≡ repeated_rule name.entry.now }
    ensures local { result.global ≡ false }
{
    Arg::new(alloc, name)
        .long(name)
        .action(ArgAction::Append)
        .value_name(value_name)
        .help(help)
}

/// Up to eight words that no option takes.
pub(crate) fn further<'a>(alloc: Global, name: &'a str, help: &'a str) -> Arg<'a>
    ensures rule { rule_of result ≡ further_rule name.entry.now 8 }
    ensures local { result.global ≡ false }
{
    Arg::new(alloc, name)
        .action(ArgAction::Set)
        .num_args(..=8)
        .value_name("HOST:PORT")
        .help(help)
}

/// An option that takes no value.
pub(crate) fn flag<'a>(alloc: Global, name: &'a str, help: &'a str) -> Arg<'a>
    ensures rule { rule_of result ≡ flag_rule name.entry.now }
    ensures local { result.global ≡ false }
{
    Arg::new(alloc, name)
        .long(name)
        .action(ArgAction::SetTrue)
        .help(help)
}

/// An option that takes one value, under its long name.
pub(crate) fn option<'a>(
    alloc: Global,
    name: &'a str,
    value_name: &'a str,
    help: &'a str,
) -> Arg<'a>
    ensures rule { rule_of result ≡ option_rule name.entry.now }
    ensures local { result.global ≡ false }
{
    Arg::new(alloc, name)
        .long(name)
        .action(ArgAction::Set)
        .value_name(value_name)
        .help(help)
}
