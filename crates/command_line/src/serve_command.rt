//! `reflectord serve` as clap has it, with its options.

ghost use Rattle.std.specs.Prelude.{◌≡◌, IfOk, false, map};
ghost use Rattle.std.specs.List.{AllByRecursion};
ghost use Rattle.clap.specs.Words.{app_of, rule_of};
ghost use Rattle.command_line.specs.Serve.{bind as bind_rule, host as host_rule};
ghost use Rattle.command_line.specs.Serve.{browser_rules, host_rules, machine_rules, port_rules, run_rules, screen_rules, turn_rules, viewer_rules};
ghost use Rattle.command_line.specs.Serve.{serve, serve_alone};

use crate::arguments::{flag, further, option, pause, places, port, repeated, seconds, web_port};
use crate::command::VERSION;
use clap::{Arg, Command};
use std::alloc::{AllocError, Global};

const EXAMPLES: &str = "Examples:
  reflectord serve --host 192.0.2.7:5900
  reflectord serve --host 127.0.0.1:5907 --bind 0.0.0.0 --view-only --view-places 32
  reflectord serve --host 192.0.2.7:5900 192.0.2.8:5900 --again 5";

/// `reflectord serve`, whose words are those after `serve`. Its help names the options in this order.
pub(crate) fn serve_command<'a>(alloc: Global) -> Result<Command<'a>, AllocError>
    ensures { IfOk result (λ command. app_of command ≡ serve) }
{
    without_options(alloc)?
        .args(host_options(alloc)?)?
        .args(port_options(alloc)?)?
        .args(viewer_options(alloc)?)?
        .args(screen_options(alloc)?)?
        .args(browser_options(alloc)?)?
        .args(machine_options(alloc)?)?
        .args(turn_options(alloc)?)?
        .args(run_options(alloc)?)
}

/// The options of the first host.
fn host_options<'a>(alloc: Global) -> Result<Vec<Arg<'a>>, AllocError>
    ensures rules { IfOk result (λ options. map rule_of options.items ≡ host_rules) }
    ensures local { IfOk result (λ options.
        AllByRecursion (λ option. option.global ≡ false) options.items) }
{
    let options = vec![in alloc;
        host(alloc),
        option(
            alloc,
            "host-password-file",
            "PATH",
            "A file with the hosts' password in its first line, or as vncpasswd writes it"
        ),
    ]?;
    Ok(options)
}

/// The options of the addresses and ports of viewers.
fn port_options<'a>(alloc: Global) -> Result<Vec<Arg<'a>>, AllocError>
    ensures rules { IfOk result (λ options. map rule_of options.items ≡ port_rules) }
    ensures local { IfOk result (λ options.
        AllByRecursion (λ option. option.global ≡ false) options.items) }
{
    let options = vec![in alloc;
        bind(alloc),
        option(
            alloc,
            "full-bind",
            "IP",
            "The address to listen on for viewers with full control, in place of --bind"
        ),
        port(
            alloc,
            "full",
            "5900",
            "The port of viewers with full control"
        ),
        port(
            alloc,
            "view",
            "5901",
            "The port of viewers that only look on"
        ),
        flag(
            alloc,
            "view-only",
            "Serve no viewers with full control: open no port for them"
        ),
    ]?;
    Ok(options)
}

/// The options of who may be a viewer: their passwords, and how many they may be.
fn viewer_options<'a>(alloc: Global) -> Result<Vec<Arg<'a>>, AllocError>
    ensures rules { IfOk result (λ options. map rule_of options.items ≡ viewer_rules) }
    ensures local { IfOk result (λ options.
        AllByRecursion (λ option. option.global ≡ false) options.items) }
{
    let options = vec![in alloc;
        option(
            alloc,
            "full-password-file",
            "PATH",
            "A file with the password that viewers with full control are asked for"
        ),
        option(
            alloc,
            "view-password-file",
            "PATH",
            "A file with the password that viewers that only look on are asked for"
        ),
        places(
            alloc,
            "full-places",
            "How many viewers with full control, up to 32"
        ),
        places(
            alloc,
            "view-places",
            "How many viewers that only look on, up to 32"
        ),
    ]?;
    Ok(options)
}

/// The options of the screen that viewers are sent.
fn screen_options<'a>(alloc: Global) -> Result<Vec<Arg<'a>>, AllocError>
    ensures rules { IfOk result (λ options. map rule_of options.items ≡ screen_rules) }
    ensures local { IfOk result (λ options.
        AllByRecursion (λ option. option.global ≡ false) options.items) }
{
    let options = vec![in alloc;
        option(
            alloc,
            "room",
            "WxH",
            "The size of the screen that viewers are told, up to 4096x4096; else that of the first host's"
        ),
        flag(
            alloc,
            "plain-runs",
            "Write RRE and Hextile as runs of one row, which have more bytes"
        ),
        flag(
            alloc,
            "no-zrle",
            "Answer no viewer in ZRLE, which has fewer bytes and takes more time"
        ),
    ]?;
    Ok(options)
}

/// The options of browsers.
fn browser_options<'a>(alloc: Global) -> Result<Vec<Arg<'a>>, AllocError>
    ensures rules { IfOk result (λ options. map rule_of options.items ≡ browser_rules) }
    ensures local { IfOk result (λ options.
        AllByRecursion (λ option. option.global ≡ false) options.items) }
{
    let options = vec![in alloc;
        web_port(alloc, "web-full", "A port for browsers with full control"),
        web_port(alloc, "web-view", "A port for browsers that only look on"),
        option(
            alloc,
            "web-root",
            "DIR",
            "The folder of noVNC, whose files browsers are sent"
        ),
        repeated(
            alloc,
            "web-origin",
            "ORIGIN",
            "Let pages of this origin connect, as https://lecture.example (more than one: once for each)",
        ),
    ]?;
    Ok(options)
}

/// The options of machines that read the run's numbers, of a proxy, and of the log.
fn machine_options<'a>(alloc: Global) -> Result<Vec<Arg<'a>>, AllocError>
    ensures rules { IfOk result (λ options. map rule_of options.items ≡ machine_rules) }
    ensures local { IfOk result (λ options.
        AllByRecursion (λ option. option.global ≡ false) options.items) }
{
    let options = vec![in alloc;
        option(
            alloc,
            "metrics",
            "IP:PORT",
            "Answer /metrics for Prometheus, and /health for a balancer, at this address"
        ),
        option(
            alloc,
            "proxy-from",
            "IP",
            "Believe the proxy at this address, which says by PROXY protocol v2 from where viewers come"
        ),
        flag(
            alloc,
            "log",
            "Log who comes and who leaves, on standard error"
        ),
    ]?;
    Ok(options)
}

/// The options of when hosts are tried again, and of how recordings are played.
fn turn_options<'a>(alloc: Global) -> Result<Vec<Arg<'a>>, AllocError>
    ensures rules { IfOk result (λ options. map rule_of options.items ≡ turn_rules) }
    ensures local { IfOk result (λ options.
        AllByRecursion (λ option. option.global ≡ false) options.items) }
{
    let options = vec![in alloc;
        pause(
            alloc,
            "again",
            "Try the first host again so long after the last has ended, up to 3600",
        ),
        option(
            alloc,
            "from",
            "HH:MM:SS",
            "The time from which recordings are played; else from their beginning"
        ),
        option(
            alloc,
            "speed",
            "TIMES",
            "How fast recordings are played, from 0.25 to 16 times their own pace"
        ),
    ]?;
    Ok(options)
}

/// The options of how long a viewer is waited for, of an operator, of the recording that is made, and of further hosts.
fn run_options<'a>(alloc: Global) -> Result<Vec<Arg<'a>>, AllocError>
    ensures rules { IfOk result (λ options. map rule_of options.items ≡ run_rules) }
    ensures local { IfOk result (λ options.
        AllByRecursion (λ option. option.global ≡ false) options.items) }
{
    let options = vec![in alloc;
        seconds(
            alloc,
            "stalled",
            "How long a viewer may take nothing of what it is sent, from 10 to 600"
        ),
        option(
            alloc,
            "control",
            "PATH",
            "Hear an operator at a socket of this path"
        ),
        option(
            alloc,
            "record",
            "PATH",
            "Record all that is shown into a new file, with times as %Y-%m-%d_%H%M%S in its name"
        ),
        seconds(
            alloc,
            "record-key",
            "How much of a recording lies between two moments at which it can be entered, from 10 to 600"
        ),
        further(alloc, "next", "Hosts that follow on the first one, up to 8"),
    ]?;
    Ok(options)
}

/// The command without its options.
fn without_options<'a>(alloc: Global) -> Result<Command<'a>, AllocError>
    ensures { IfOk result (λ command. app_of command ≡ serve_alone) }
{
    let command = Command::new(alloc, "serve")
        .bin_name("reflectord serve")?
        .display_name("reflectord")?
        .no_binary_name(true)
        .version(VERSION)
        .about("Connects to a VNC host, and serves its screen to many viewers")
        .after_help(EXAMPLES);
    Ok(command)
}

/// The option of the first host, which is required.
fn host<'a>(alloc: Global) -> Arg<'a>
    ensures rule { rule_of result ≡ host_rule }
    ensures local { result.global ≡ false }
{
    option(
        alloc,
        "host",
        "HOST:PORT",
        "The VNC host, by its address or name, listen:IP:PORT where it calls, or file:PATH of a recording",
    )
    .required(true)
}

/// The option of the address at which all ports are bound.
fn bind<'a>(alloc: Global) -> Arg<'a>
    ensures rule { rule_of result ≡ bind_rule }
    ensures local { result.global ≡ false }
{
    option(alloc, "bind", "IP", "The address to listen on").default_value("127.0.0.1")
}
