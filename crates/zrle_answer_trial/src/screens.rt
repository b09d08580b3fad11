//! Cuts of a screen, and whole answers of what they show.

ghost use Rattle.std.specs.Prelude.{◌≡◌, ◌*◌, length, IfOk};
ghost use Rattle.raster.specs.Screen.{IsWithin};
ghost use Rattle.raster.specs.Size.{IsScreenSize};

use crate::cases::{SCREEN_SIDE, rect_of};
use crate::sharing::{expect_the_same, shared_cut_of};
use crate::words::{format_of, numbers_of, parted};
use joined_runs::RectForm;
use painter::{Board, Painter};
use raster::{Encoding, Rect};
use reflect_core::Cut;
use rfb_wire::Choice;
use std::alloc::Global;
use std::test::Fail;
use tiles::Have;
use update_encoder::Style;
use zrle_answer::{AnswerWriter, Unwritten};

/// A cut of a screen of these colours, row after row, all of whose tiles are due and none of which was sent before.
fn cut_of(alloc: Global, width: u64, height: u64, colours: &[u32]) -> Result<Cut, Fail>
    requires size { IsScreenSize width height }
    requires count { length colours.now ≡ width * height }
    ensures { IfOk result (λ cut. (cut.width ≡ width) × (cut.height ≡ height)) }
{
    let all = Rect {
        x: 0,
        y: 0,
        w: width,
        h: height,
    };
    let mut painter = Painter::new(alloc, width, height)?;
    painter.put(all, colours);
    let mut board = Board::new(alloc, width, height)?;
    if board.number() == 0 {
        board.apply(&painter.patch()?, None);
    }
    let mut cut = Cut::new(alloc, width, height)?;
    cut.fill_with_copy(&board, &all, &Have::new(alloc, width, height)?, None);
    Ok(cut)
}

/// Leaves the tiles due whose numbers a word has, parted by commas: `all` of them, or those. It begins with `+` where
/// each of them was sent before.
fn mark(cut: &mut Cut, word: &str) -> Result<(), Fail>
    ensures { (cut.new.width ≡ cut.old.width) × (cut.new.height ≡ cut.old.height) }
{
    let word = match word.strip_prefix("+") {
        Some(rest) => {
            cut.all_were_sent = true;
            rest
        }
        None => word,
    };
    if word == "all" {
        return Ok(());
    }
    let due = cut.due.as_mut_slice();
    due.fill(false);
    for part in word.split(',') {
        match due.get_mut(part.parse::<usize>()?) {
            Some(one) => *one = true,
            None => return Err(Fail::new("no such tile")),
        }
    }
    Ok(())
}

/// The style of a format: Hextile of joined runs, and CopyRect.
fn style_of(alloc: Global, word: &str) -> Result<Style, Fail> {
    Ok(Style {
        runs: RectForm::Joined,
        format: format_of(alloc, word)?,
        choice: Choice {
            kind: Encoding::Hextile,
            copy: true,
            resizes: false,
            zrle: true,
        },
    })
}

/// The fields of a line `FORMAT WIDTH HEIGHT X Y W H LIMIT DUE COLOURS`: the answer is of `limit` bytes at most, and
/// `due` says which tiles of the screen are due.
#[derive(Drop)]
struct AnswerLine<'a> {
    style: Style,
    width: u64,
    height: u64,
    area: Rect,
    limit: usize,
    due: &'a str,
    colours: Vec<u32>,
    ghost size: { IsScreenSize width height },
    ghost count: { length colours.items ≡ width * height },
    ghost within: { IsWithin area width height },
}

/// Reads the fields of a line.
fn answer_line_of(alloc: Global, line: &str) -> Result<AnswerLine<'_>, Fail> {
    let (format, rest) = parted(line);
    let style = style_of(alloc, format)?;
    let (width, rest) = parted(rest);
    let (height, rest) = parted(rest);
    let (area, rest) = rect_of(rest)?;
    let (limit, rest) = parted(rest);
    let (due, rest) = parted(rest);
    let (width, height) = (width.parse::<usize>()?, height.parse::<usize>()?);
    let limit = limit.parse::<usize>()?;
    let colours = numbers_of(alloc, rest)?;
    if width == 0 || height == 0 || width > SCREEN_SIDE || height > SCREEN_SIDE {
        return Err(Fail::new("no such screen"));
    }
    if colours.len() != width * height || !area.within(width as u64, height as u64) {
        return Err(Fail::new("no such area"));
    }
    Ok(AnswerLine {
        style,
        width: width as u64,
        height: height as u64,
        area,
        limit,
        due,
        colours,
    })
}

/// Fails unless two viewers that share parts are each sent this answer, which was written for one that shares none.
fn expect_shared(
    alloc: Global,
    line: &AnswerLine<'_>,
    begun: bool,
    alone: &[u8],
) -> Result<(), Fail> {
    let mut cut = shared_cut_of(alloc, line.width, line.height, line.colours.as_slice())?;
    mark(&mut cut, line.due)?;
    expect_the_same(alloc, &cut, &line.area, &line.style, begun, alone)
}

/// Prints, in hex, the answer `FORMAT WIDTH HEIGHT X Y W H LIMIT DUE COLOURS`, or why there is none. Two viewers that
/// share parts have to be sent the same. Answers whether the stream has begun after it.
pub(crate) fn print_answer(
    rt: &HostRuntime,
    writer: &mut AnswerWriter,
    begun: bool,
    line: &str,
) -> Result<bool, Fail> {
    let alloc = rt.alloc();
    let line = answer_line_of(alloc, line)?;
    let mut cut = cut_of(alloc, line.width, line.height, line.colours.as_slice())?;
    mark(&mut cut, line.due)?;
    let mut out = Vec::new(alloc);
    let written = writer.write(&cut, &line.area, &line.style, begun, line.limit, &mut out);
    match written {
        Ok(now) => {
            expect_shared(alloc, &line, begun, out.as_slice())?;
            let text = hex::encode(alloc, out.as_slice())?;
            println!(rt; "{text}")?;
            Ok(now)
        }
        Err(Unwritten::TooLong) => {
            println!(rt; "longer than the limit")?;
            Ok(begun)
        }
        Err(Unwritten::NotWorthIt) => {
            println!(rt; "not worth it")?;
            Ok(begun)
        }
        Err(Unwritten::Memory) => Err(Fail::new("memory was refused")),
    }
}
