//! What `bench/answers` calls.

ghost use Rattle.std.specs.Prelude.{◌≡◌, ◌+◌, ◌*◌, ◌≤◌, length, IfOk};
ghost use Rattle.raster.specs.Size.{IsScreenSize};

use fault::Fault;
use joined_runs::RectForm;
use painter::{Board, Painter};
use pixel_format::Format;
use raster::{Encoding, Rect};
use reflect_core::Cut;
use rfb_wire::Choice;
use std::alloc::Global;
use tiles::Have;
use update_encoder::{Answer, Style};

/// Room for one rectangle: its pixel values, and its bytes.
#[derive(Drop)]
struct Room {
    values: Vec<u32>,
    out: Vec<u8>,
}

/// Copies as many bytes as have room.
fn keep(bytes: &[u8], sent: &mut [u8]) {
    let len = bytes.len().min(sent.len());
    sent[..len].copy_from_slice(&bytes[..len]);
}

/// Writes all rectangles of an answer of the whole screen, each over the one before, and copies them one after the
/// other as far as there is room. It answers how many bytes they have.
fn write_all(cut: &Cut, style: Style, room: &mut Room, sent: &mut [u8]) -> u64
    requires values { 16 * cut.now.width ≤ length room.old.values.items }
    requires out { 12 + 64 * cut.now.width ≤ length room.old.out.items }
    ensures values { length room.new.values.items ≡ length room.old.values.items }
    ensures out { length room.new.out.items ≡ length room.old.out.items }
{
    let area = Rect {
        x: 0,
        y: 0,
        w: cut.width,
        h: cut.height,
    };
    let mut answer = Answer::start(cut, &area, style);
    let mut total: usize = 0;
    for _turn in 0..answer.count() {
        let next = answer.next(cut, room.values.as_mut_slice(), room.out.as_mut_slice());
        if let Some(len) = next {
            if total < sent.len() {
                keep(&room.out[..len], &mut sent[total..]);
            }
            total = total.saturating_add(len);
        }
    }
    total as u64
}

/// Marks all tiles as due, or the middle one alone.
fn mark(due: &mut [bool], all: bool) {
    due.fill(all);
    let middle = due.len() / 2;
    if let Some(one) = due.get_mut(middle) {
        *one = true;
    }
}

/// A board of these colours, and what a viewer has to which nothing was sent.
#[derive(Drop)]
struct Source {
    board: Board,
    have: Have,
    ghost same: { (have.width ≡ board.width) × (have.height ≡ board.height) },
}

/// A source of these colours, row after row.
fn make_source(alloc: Global, width: u64, height: u64, colours: &[u32]) -> Result<Source, Fault>
    requires size { IsScreenSize width height }
    requires count { length colours.now ≡ width * height }
    ensures { IfOk result (λ source.
        (source.board.width ≡ width) × (source.board.height ≡ height)) }
{
    let mut painter = Painter::new(alloc, width, height)?;
    let all = Rect {
        x: 0,
        y: 0,
        w: width,
        h: height,
    };
    painter.put(all, colours);
    let patch = painter.patch()?;
    let mut board = Board::new(alloc, width, height)?;
    if board.number() == 0 {
        board.apply(&patch, None);
    }
    let have = Have::new(alloc, width, height)?;
    Ok(Source { board, have })
}

/// Copies the source's colours into a cut, and marks all tiles as due, or the middle one alone.
fn refresh(cut: &mut Cut, source: &Source, all: bool)
    requires { (source.now.board.width ≡ cut.old.width)
        × (source.now.board.height ≡ cut.old.height) }
    ensures { (cut.new.width ≡ cut.old.width) × (cut.new.height ≡ cut.old.height) }
{
    let area = Rect {
        x: 0,
        y: 0,
        w: cut.width,
        h: cut.height,
    };
    cut.fill_with_copy(&source.board, &area, &source.have, None);
    mark(cut.due.as_mut_slice(), all);
}

/// Does what `refresh` does, where the colours are to be copied anew.
fn refresh_if(copies: bool, cut: &mut Cut, source: &Source, all: bool)
    requires { (source.now.board.width ≡ cut.old.width)
        × (source.now.board.height ≡ cut.old.height) }
    ensures { (cut.new.width ≡ cut.old.width) × (cut.new.height ≡ cut.old.height) }
{
    if copies {
        refresh(cut, source, all);
    }
}

/// Room for a cut, and for a rectangle.
fn prepare(alloc: Global, width: u64, height: u64) -> Result<(Cut, Room), Fault>
    requires { IsScreenSize width height }
    ensures { IfOk result (λ p. (p.0.width ≡ width) × (p.0.height ≡ height)
        × (length p.1.values.items ≡ 16 * width) × (length p.1.out.items ≡ 12 + 64 * width)) }
{
    let cut = Cut::new(alloc, width, height)?;
    let values = vec![in alloc; 0u32; 16 * width as usize]?;
    let out = vec![in alloc; 0u8; 12 + 64 * width as usize]?;
    Ok((cut, Room { values, out }))
}

/// Copies colours into a cut, and writes an answer of the whole screen from it, this many times, and once more into
/// `sent`. `kind` is the number of its encoding, and any other is Raw. With `joined` it has joined runs, and otherwise
/// those of the rows. With `all` it is of all tiles, and otherwise of one. With `copies` the colours are copied anew
/// each time. It answers how many bytes an answer has after its header, or 0 where there is no memory, no such screen
/// or format, or colours of another size.
#[unsafe(no_mangle)]
pub extern "C" fn bench_answers(
    alloc: Global,
    format: &[u8; 16],
    kind: u32,
    joined: bool,
    width: u32,
    height: u32,
    colours: &[u32],
    all: bool,
    copies: bool,
    times: u32,
    sent: &mut [u8],
) -> u64 {
    if width == 0 || width > 4096 || height == 0 || height > 4096 {
        return 0;
    }
    let Ok(format) = Format::read(format) else {
        return 0;
    };
    let (width, height) = (u64::from(width), u64::from(height));
    if colours.len() as u64 != width * height {
        return 0;
    }
    let Ok((mut cut, mut room)) = prepare(alloc, width, height) else {
        return 0;
    };
    let Ok(source) = make_source(alloc, width, height, colours) else {
        return 0;
    };
    let style = Style {
        runs: if joined {
            RectForm::Joined
        } else {
            RectForm::OfRows
        },
        format,
        choice: Choice {
            kind: Encoding::of_number(kind).unwrap_or(Encoding::Raw),
            copy: false,
            resizes: false,
            zrle: false,
        },
    };
    refresh(&mut cut, &source, all);
    for _time in 0..times {
        refresh_if(copies, &mut cut, &source, all);
        write_all(&cut, style, &mut room, &mut []);
    }
    write_all(&cut, style, &mut room, sent)
}
