//! Cuts, and answers of what they show.

ghost use Rattle.std.specs.Prelude.{◌+◌, ◌*◌, ◌≤◌, length};
ghost use Rattle.raster.specs.Screen.{IsWithin};

use crate::copies::tell_copies;
use crate::formats::format_of;
use crate::lines::Tried;
use crate::rects::rect_of;
use crate::values::Values;
use copy_log::{CopyLog, CopyRect, SentAt};
use fault::Fault;
use joined_runs::RectForm;
use painter::{Board, Painter};
use raster::{Encoding, Rect};
use reflect_core::Cut;
use rfb_wire::Choice;
use std::alloc::Global;
use tiles::Have;
use update_encoder::{Answer, LONGEST_FRONT, Style};

/// Fills a cut with a screen whose first pixel has the first colour, whose last one has the last, and all between the
/// other.
fn paint(alloc: Global, cut: &mut Cut, colours: &[u32; 3]) -> Result<(), Fault> {
    let (width, height) = (cut.width, cut.height);
    let all = Rect {
        x: 0,
        y: 0,
        w: width,
        h: height,
    };
    let count = (width * height) as usize;
    let mut pixels = vec![in alloc; colours[1]; count]?;
    pixels[0] = colours[0];
    pixels[count - 1] = colours[2];
    let mut painter = Painter::new(alloc, width, height)?;
    painter.put(all, pixels.as_slice());
    let mut board = Board::new(alloc, width, height)?;
    if board.number() == 0 {
        board.apply(&painter.patch()?, None);
    }
    cut.fill_with_copy(&board, &all, &Have::new(alloc, width, height)?, None);
    Ok(())
}

/// Tells how many bytes an answer has in all, and its first 64.
fn tell_answer(
    cut: &Cut,
    area: &Rect,
    style: Style,
    values: &mut [u32],
    out: &mut [u8],
    seen: &mut Values,
) -> Option<()>
    requires area { IsWithin area.now cut.now.width cut.now.height }
    requires values { 16 * cut.now.width ≤ length values.old }
    requires room { 12 + 64 * cut.now.width ≤ length out.old }
{
    let mut answer = Answer::start(cut, area, style);
    let mut front = [0; LONGEST_FRONT];
    let count = answer.write_front(cut, &mut front);
    seen.spell(&front[..count])?;
    let mut len = count as u64;
    for _turn in 0..answer.count() {
        let count = answer.next(cut, values, out)?;
        seen.spell(&out[..count])?;
        len = len.saturating_add(count as u64);
    }
    if answer.next(cut, values, out).is_some() {
        return None;
    }
    seen.tell(&[len])
}

/// Passes a copy of the host on, to a viewer that was sent the whole screen before it.
fn pass_copy(alloc: Global, cut: &mut Cut, copy: CopyRect) -> Result<(), Fault> {
    let (width, height) = (cut.width, cut.height);
    let all = Rect {
        x: 0,
        y: 0,
        w: width,
        h: height,
    };
    let mut log = CopyLog::new(alloc, width, height)?;
    if log.number() == 0 {
        log.note(&[copy], &[]);
    }
    let mut have = Have::new(alloc, width, height)?;
    have.keep(&all, None, 0);
    log.pass(0, &all, &SentAt::new(&have, 0), &mut cut.passed);
    Ok(())
}

/// Tells the same of an answer, written with just the room that a rectangle may need. The numbers say the encoding,
/// whether CopyRect is taken, whether runs are joined, and the area.
fn answer(alloc: Global, cut: &Cut, given: &Values, seen: &mut Values) -> Option<()> {
    let ([kind, copy, joined], rest) = given.numbers.as_slice().split_first_chunk::<3>()?;
    let (area, _) = rect_of(rest)?;
    let style = Style {
        runs: if *joined == 1 {
            RectForm::Joined
        } else {
            RectForm::OfRows
        },
        format: format_of(given.bytes.as_slice())?,
        choice: Choice {
            kind: Encoding::of_number(u32::try_from(*kind).ok()?)?,
            copy: *copy == 1,
            resizes: false,
            zrle: false,
        },
    };
    if !area.within(cut.width, cut.height) {
        return None;
    }
    let mut values = vec![in alloc; 0u32; 16 * cut.width as usize].ok()?;
    let mut out = vec![in alloc; 0u8; 12 + 64 * cut.width as usize].ok()?;
    tell_answer(
        cut,
        &area,
        style,
        values.as_mut_slice(),
        out.as_mut_slice(),
        seen,
    )
}

/// Tells what a cut shows: its number, its Bells, its text, whether each due tile was sent, and for each tile whether
/// it is still due.
fn tell_cut(cut: &Cut, seen: &mut Values) -> Option<()> {
    let text = cut.text.number().unwrap_or(0);
    seen.tell(&[cut.number, cut.bells, text, u64::from(cut.all_were_sent)])?;
    for due in cut.due.as_slice() {
        seen.tell(&[u64::from(*due)])?;
    }
    seen.spell(cut.text.bytes())
}

impl Tried for Cut {
    fn play(&mut self, alloc: Global, word: &str, given: &Values, seen: &mut Values) -> Option<()> {
        let bytes = given.bytes.as_slice();
        match (word, given.numbers.as_slice()) {
            ("screen", []) => paint(alloc, self, given.colours.as_slice().as_array()?).ok(),
            ("due", []) => {
                let tiles = u64::from_be_bytes(*bytes.as_array::<8>()?);
                for (t, due) in self.due.as_mut_slice().iter_mut().enumerate() {
                    *due = tiles >> (t % 64) & 1 == 1;
                }
                Some(())
            }
            ("copied", numbers) => {
                let (area, source) = rect_of(numbers)?;
                let [x, y] = *source.as_array::<2>()?;
                pass_copy(alloc, self, CopyRect { area, x, y }).ok()
            }
            ("were_sent", [were_sent]) => {
                self.all_were_sent = *were_sent == 1;
                Some(())
            }
            ("shown", []) => tell_cut(self, seen),
            ("passed", []) => tell_copies(self.passed.copies(), seen),
            ("at", places) => seen.pick(self.colours.as_slice(), places),
            ("lends", numbers) => {
                let (area, _) = rect_of(numbers)?;
                let is_lent = self.encoded(&area, &format_of(bytes)?).is_some();
                seen.tell(&[u64::from(is_lent)])
            }
            ("answer", _) => answer(alloc, self, given, seen),
            _ => None,
        }
    }
}
