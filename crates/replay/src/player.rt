//! Plays scripts over the world of `reflect_world`.

ghost use Rattle.std.specs.Prelude.{◌≡◌, ◌≤◌, ◌⊎◌, length, IfOk};
ghost use Rattle.raster.specs.Size.{IsScreenSize};

use crate::hexadecimal::shown;
use crate::line::{Access, Line};
use crate::reads::FewReads;
use fault::Fault;
use joined_runs::RectForm;
use reflect_world::{Step, World, play};
use roles::Role;
use std::alloc::{AllocError, Global};
use std::io::{BufRead, BufReader, BufWriter, ErrorKind, Read, Write};
use std::{io, slice};

/// A script is read by at most this many reads.
const READS: u64 = 1 << 40;

/// A line has at most this many bytes, its line feed among them: enough for a whole Raw update of the largest screen.
const LONGEST_LINE: u64 = 1 << 28;

/// The widest and highest screen that is served, in pixels.
const LARGEST: u64 = 4096;

/// Room for inputs on their way to the host.
const ROOM: u64 = 1 << 62;

/// More bytes than are ever unsent, so that all unsent bytes are written.
const ALL: u64 = u64::MAX;

/// Why a script isn't played to its end.
#[derive(Drop)]
enum StopReason {
    /// The line of this number has no valid form; or it names a viewer that isn't open, or is to open one that is open
    /// already.
    Line(u64),
    /// The reader or the writer failed, the script or one of its lines has no end, or the numbers of updates have run
    /// out.
    Failed,
    /// Memory was refused while the script was played.
    Memory,
}

impl From<AllocError> for StopReason {
    fn from(_refused: AllocError) -> StopReason {
        StopReason::Memory
    }
}

impl From<Fault> for StopReason {
    fn from(fault: Fault) -> StopReason {
        match fault {
            Fault::Memory => StopReason::Memory,
            _ => StopReason::Failed,
        }
    }
}

impl From<io::Error> for StopReason {
    fn from(error: io::Error) -> StopReason {
        if error.kind() == ErrorKind::OutOfMemory && error.raw_os_error().is_none() {
            StopReason::Memory
        } else {
            StopReason::Failed
        }
    }
}

/// Plays a script, and answers the exit status: 0; 2 at a bad line; 3 after a fault of the host, where the reader or
/// the writer fails, where the script has no end after 2^40 reads, or where a line has more than 256 MiB with its line
/// feed; 4 where memory is refused.
pub fn replay<R: Read + Drop, W: Write + Drop>(alloc: Global, reader: R, writer: W) -> u8
    ensures { (result ≡ 0) ⊎ ((2 ≤ result) × (result ≤ 4)) }
{
    let Ok(mut input) = BufReader::new(alloc, FewReads::new(reader, READS)) else {
        return 4;
    };
    let Ok(mut output) = BufWriter::new(alloc, writer) else {
        return 4;
    };
    let status = match play_script(alloc, &mut input, &mut output) {
        Ok(host_failed) => { if host_failed { 3 } else { 0 } }
        Err(stop) => status_of(alloc, &mut output, stop),
    };
    match output.flush() {
        Ok(()) => status,
        Err(_) => 3,
    }
}

/// The exit status of a script that isn't played to its end. The number of a bad line is printed.
fn status_of<W: Write>(alloc: Global, output: &mut W, stop: StopReason) -> u8
    ensures { (2 ≤ result) × (result ≤ 4) }
{
    match stop {
        StopReason::Line(number) => match print_bad_line(alloc, output, number) {
            Ok(()) => 2,
            Err(StopReason::Memory) => 4,
            Err(_) => 3,
        },
        StopReason::Failed => 3,
        StopReason::Memory => 4,
    }
}

fn print_bad_line<W: Write>(alloc: Global, output: &mut W, number: u64) -> Result<(), StopReason> {
    print(output, format!(in alloc; "line {number}\n")?)
}

/// Plays a script whose viewers are answered in the canonical spelling, and answers whether the host's bytes were at
/// fault.
fn play_script<B: BufRead, W: Write>(
    alloc: Global,
    input: &mut B,
    output: &mut W,
) -> Result<bool, StopReason> {
    let mut line = Vec::new(alloc);
    if !next_line(input, &mut line)? {
        return Ok(false);
    }
    let (width, height, name) = screen_line(alloc, line.as_slice())?;
    let mut world = World::new(
        alloc,
        width,
        height,
        name.as_bytes(),
        ROOM,
        RectForm::OfRows,
    )?;
    play_lines(alloc, &mut world, input, output)
}

/// Plays the lines after the first, and answers whether the host's bytes were at fault.
fn play_lines<B: BufRead, W: Write>(
    alloc: Global,
    world: &mut World,
    input: &mut B,
    output: &mut W,
) -> Result<bool, StopReason> {
    let mut line = Vec::new(alloc);
    // Each line has at least one byte, so the reads run out long before there are this many lines.
    for number in 2..u64::MAX {
        if !next_line(input, &mut line)? {
            return Ok(world.host_fault().is_some());
        }
        if !play_line(alloc, world, output, line.as_slice())? {
            return Err(StopReason::Line(number));
        }
    }
    Err(StopReason::Failed)
}

/// Reads the next line, without its line feed, and answers whether there is one. It fails at a line that is too long.
fn next_line<B: BufRead>(input: &mut B, line: &mut Vec<u8>) -> Result<bool, StopReason> {
    line.clear();
    let count = input.by_ref().take(LONGEST_LINE).read_until(b'\n', line)?;
    if count == 0 {
        return Ok(false);
    }
    if line.last() == Some(&b'\n') {
        // This is the line feed.
        let _ = line.pop();
    } else if count as u64 == LONGEST_LINE {
        return Err(StopReason::Failed);
    }
    Ok(true)
}

/// Writes a line that is complete.
fn print<W: Write>(output: &mut W, line: String) -> Result<(), StopReason> {
    output.write_all(line.as_bytes())?;
    Ok(())
}

/// The width, the height and the name of the screen that the first line opens.
fn screen_line(alloc: Global, line: &[u8]) -> Result<(u64, u64, &str), StopReason>
    ensures size { IfOk result (λ screen. IsScreenSize screen.0 screen.1) }
    ensures name { IfOk result (λ screen. (1 ≤ length screen.2.now) × (length screen.2.now ≤ 255)) }
{
    let Ok(text) = str::from_utf8(line) else {
        return Err(StopReason::Line(1));
    };
    match Line::read(alloc, text)? {
        Some(Line::Screen(width, height, name)) if width <= LARGEST && height <= LARGEST => {
            Ok((width, height, name))
        }
        _ => Err(StopReason::Line(1)),
    }
}

/// Plays a further line, and answers whether it is one that may stand there.
fn play_line<W: Write>(
    alloc: Global,
    world: &mut World,
    output: &mut W,
    line: &[u8],
) -> Result<bool, StopReason> {
    let Ok(text) = str::from_utf8(line) else {
        return Ok(false);
    };
    let Some(line) = Line::read(alloc, text)? else {
        return Ok(false);
    };
    match line {
        Line::Screen(_, _, _) => Ok(false),
        Line::Host(bytes) => host(alloc, world, output, bytes),
        Line::Next => next_host(alloc, world, output),
        Line::Raise => {
            play_one(world, Step::Raise)?;
            Ok(true)
        }
        Line::Open(viewer, access) => join(world, viewer, access, false),
        Line::Greet(viewer, access) => join(world, viewer, access, true),
        Line::Viewer(viewer, bytes) => viewer_bytes(alloc, world, output, viewer, bytes),
        Line::Turn(viewer) => turn(alloc, world, output, viewer),
        Line::Leave(viewer) => leave(world, viewer),
        Line::Input => input(alloc, world, output),
        Line::Dropped(viewer) => dropped(alloc, world, output, viewer),
    }
}

fn play_one(world: &mut World, step: Step) -> Result<(), StopReason> {
    match play(world, slice::from_ref(&step)) {
        Ok(()) => Ok(()),
        Err((_, fault)) => Err(StopReason::from(fault)),
    }
}

/// Adds bytes of the host, and puts the update of each whole message.
fn host<W: Write>(
    alloc: Global,
    world: &mut World,
    output: &mut W,
    bytes: Vec<u8>,
) -> Result<bool, StopReason> {
    play_one(world, Step::HostBytes(bytes))?;
    put_all(alloc, world, output)
}

/// Begins the next host, unless this one is at fault, and puts the switch to black.
fn next_host<W: Write>(
    alloc: Global,
    world: &mut World,
    output: &mut W,
) -> Result<bool, StopReason> {
    play_one(world, Step::Next)?;
    put_all(alloc, world, output)
}

/// Puts until no update is left. It prints a fault of the host, even one that was printed before.
fn put_all<W: Write>(alloc: Global, world: &mut World, output: &mut W) -> Result<bool, StopReason> {
    for _ in 0..ROOM {
        let before = world.updates();
        play_one(world, Step::Put)?;
        if world.updates() == before {
            break;
        }
    }
    if let Some(fault) = world.host_fault() {
        let number = fault.number();
        print(output, format!(in alloc; "fault {number}\n")?)?;
    }
    Ok(true)
}

/// Whether a viewer has joined and is at no fault.
fn is_open(world: &World, viewer: u64) -> bool {
    world.is_joined(viewer) && world.fault(viewer).is_none()
}

/// Has a viewer join, with its hello or after it, unless it has joined already.
fn join(world: &mut World, viewer: u64, access: Access, greet: bool) -> Result<bool, StopReason>
    requires { (1 ≤ viewer) × (viewer ≤ 64) }
{
    if is_open(world, viewer) {
        return Ok(false);
    }
    let role = match access {
        Access::Full => Role::Full,
        Access::View => Role::View,
    };
    world.join(viewer, role, greet)?;
    Ok(true)
}

/// Reads bytes of a viewer. A fault is printed, and the viewer is no longer open.
fn viewer_bytes<W: Write>(
    alloc: Global,
    world: &mut World,
    output: &mut W,
    viewer: u64,
    bytes: Vec<u8>,
) -> Result<bool, StopReason> {
    if !is_open(world, viewer) {
        return Ok(false);
    }
    play_one(world, Step::Bytes(viewer, bytes))?;
    send_inputs(alloc, world, viewer)?;
    if let Some(fault) = world.fault(viewer) {
        let number = fault.number();
        print(output, format!(in alloc; "{viewer}: fault {number}\n")?)?;
        world.leave(viewer)?;
    }
    Ok(true)
}

/// As long as an input of the viewer waits and there is room, sends it to the queue and reads the bytes after it.
fn send_inputs(alloc: Global, world: &mut World, viewer: u64) -> Result<(), StopReason> {
    for _ in 0..ROOM {
        if !world.is_waiting(viewer) || !world.has_room() {
            break;
        }
        play_one(world, Step::Send(viewer))?;
        play_one(world, Step::Bytes(viewer, Vec::new(alloc)))?;
    }
    Ok(())
}

/// Has a viewer leave. It may be opened again.
fn leave(world: &mut World, viewer: u64) -> Result<bool, StopReason> {
    if !is_open(world, viewer) {
        return Ok(false);
    }
    world.leave(viewer)?;
    Ok(true)
}

/// Takes all inputs for the host, and prints what the host is sent.
fn input<W: Write>(alloc: Global, world: &mut World, output: &mut W) -> Result<bool, StopReason> {
    let before = world.host_sent().len();
    for _ in 0..ROOM {
        if world.queued() == 0 {
            break;
        }
        play_one(world, Step::Take)?;
    }
    let sent = world.host_sent().get(before..).unwrap_or(&[]);
    if sent.is_empty() {
        print(output, format!(in alloc; "host: -\n")?)?;
        return Ok(true);
    }
    let bytes = shown(alloc, sent)?;
    print(output, format!(in alloc; "host: {bytes}\n")?)?;
    Ok(true)
}

/// Prints how many inputs of a viewer were dropped, whether the viewer is open or not.
fn dropped<W: Write>(
    alloc: Global,
    world: &World,
    output: &mut W,
    viewer: u64,
) -> Result<bool, StopReason>
    requires { (1 ≤ viewer) × (viewer ≤ 64) }
{
    let count = world.dropped(viewer);
    print(output, format!(in alloc; "{viewer}: {count} dropped\n")?)?;
    Ok(true)
}

/// Has a viewer take its turn, with all of its unsent bytes written before the turn and after it, and prints these
/// bytes.
fn turn<W: Write>(
    alloc: Global,
    world: &mut World,
    output: &mut W,
    viewer: u64,
) -> Result<bool, StopReason> {
    if !is_open(world, viewer) {
        return Ok(false);
    }
    let before = world.written(viewer).len();
    play_one(world, Step::Written(viewer, ALL))?;
    play_one(world, Step::Look(viewer))?;
    play_one(world, Step::Cut(viewer))?;
    play_one(world, Step::Written(viewer, ALL))?;
    let written = world.written(viewer).get(before..).unwrap_or(&[]);
    print_written(alloc, output, viewer, written)?;
    Ok(true)
}

/// Prints what was written to a viewer in its turn, or that nothing was.
fn print_written<W: Write>(
    alloc: Global,
    output: &mut W,
    viewer: u64,
    written: &[u8],
) -> Result<(), StopReason> {
    if written.is_empty() {
        return print(output, format!(in alloc; "{viewer}: -\n")?);
    }
    let bytes = shown(alloc, written)?;
    print(output, format!(in alloc; "{viewer}: {bytes}\n")?)
}
