//! A whole answer that may have ZRLE.

ghost use Rattle.std.specs.Prelude.{◌≡◌, ◌<◌, ◌≤◌, ◌^◌, [], ◌++◌, ◌&&◌, length, OnOk, IfOk, IfErr, None};
ghost use Rattle.std.specs.List.{All};
ghost use Rattle.raster.specs.Screen.{IsWithin};
ghost use Rattle.reflect_core.specs.Source.{copies_in, marked};
ghost use Rattle.tiles.specs.Brings.{IsPart};
ghost use Rattle.update_encoder.specs.Coming.{front_bytes, shown};
ghost use Rattle.update_encoder.specs.Style.{style_in};
ghost use Rattle.zrle_answer.specs.Planned.{areas_of};
ghost use Rattle.zrle_answer.specs.Written.{AppendsAll, IsWholeOf, IsWhy};

use crate::one::OneWriter;
use crate::plan::{Planned, is_mostly_zrle, plan_rectangles};
use raster::Rect;
use reflect_core::Cut;
use std::alloc::{AllocError, Global};
use update_encoder::{LONGEST_FRONT, Style, write_front};

/// Why an answer wasn't written.
#[derive(Clone, Copy, Debug, PartialEq, Eq)]
pub enum Unwritten {
    /// Memory was refused.
    Memory,
    /// It has more bytes than the limit.
    TooLong,
    /// Most of what it shows wouldn't be in ZRLE, since it looks like noise, or is small. Or it shows nothing: it has
    /// copies alone.
    NotWorthIt,
}

/// Lets `?` answer `Memory` where memory was refused.
impl From<AllocError> for Unwritten {
    ghost use Rattle.std.specs.Prelude.{◌≡◌};
    ghost use Rattle.zrle_answer.specs.declared.answer.Unwritten.TheVariants.{Memory};

    ghost from_gives = { λ _ why. why ≡ Memory };

    fn from(_refused: AllocError) -> Unwritten {
        Unwritten::Memory
    }
}

/// Appends the front of an answer of so many rectangles: its header, and the copies of the host that the cut passes on.
fn append_front(cut: &Cut, count: u64, out: &mut Vec<u8>) -> Result<(), AllocError>
    requires { count ≤ 2 ^ 15 }
    ensures ok { OnOk result (out.new.items
        ≡ out.old.items ++ front_bytes (copies_in cut.now) count) }
{
    let mut front = [0; LONGEST_FRONT];
    let len = write_front(cut.passed.copies(), count, &mut front);
    out.extend_from_slice(&front[..len])
}

/// Whether CopyRect may be used: the viewer takes it, and was sent each due tile before (RFC 6143, 7.7.2).
fn may_copy(style: &Style, cut: &Cut) -> bool
    ensures { result ≡ (style.now.choice.copy && cut.now.all_were_sent) }
{
    style.choice.copy && cut.all_were_sent
}

/// Whether there are no more bytes than `limit`.
fn check_len(out: &Vec<u8>, limit: usize) -> Result<(), Unwritten>
    ensures ok { OnOk result (length out.now.items ≤ limit) }
    ensures err { IfErr result (λ why. IsWhy why limit out.now.items) }
{
    if out.len() > limit {
        return Err(Unwritten::TooLong);
    }
    Ok(())
}

/// Appends the rectangles of an answer, for a viewer whose zlib stream has `begun` or has not, and answers whether it
/// has begun then. It gives up once there are more bytes than `limit`.
fn append_all(
    writer: &mut OneWriter,
    style: &Style,
    cut: &Cut,
    plan: &[Planned],
    mut begun: bool,
    limit: usize,
    out: &mut Vec<u8>,
) -> Result<bool, Unwritten>
    requires { All (IsPart cut.now.width cut.now.height) (areas_of plan.now) }
    ensures ok { IfOk result (λ now. AppendsAll (style_in style.now) (shown cut.now)
        (style.now.choice.copy && cut.now.all_were_sent) None (areas_of plan.now) begun now
        out.old.items out.new.items) }
    ensures within { OnOk result (length out.new.items ≤ limit) }
    ensures err { IfErr result (λ why. IsWhy why limit out.new.items) }
{
    let may_copy = may_copy(style, cut);
    let mut before = None;
    for planned in plan {
        check_len(out, limit)?;
        begun = writer.append(style, cut, may_copy, before, planned, begun, out)?;
        before = Some(planned.area);
    }
    check_len(out, limit)?;
    Ok(begun)
}

/// Writes whole answers to viewers that take ZRLE. It keeps what that takes from one answer to the next.
#[derive(Drop)]
pub struct AnswerWriter {
    writer: OneWriter,
    plan: Vec<Planned>,
}

impl AnswerWriter {
    /// Takes the memory that doesn't depend on the answers: 208 KiB.
    pub fn new(alloc: Global) -> Result<AnswerWriter, AllocError> {
        let writer = OneWriter::new(alloc)?;
        Ok(AnswerWriter {
            writer,
            plan: Vec::new(alloc),
        })
    }

    /// Writes an answer of the copies that a cut passes on, and of what it shows in the tiles of an area that are still
    /// due, in a style, for a viewer that takes ZRLE and whose zlib stream has `begun` or has not (RFC 6143, 7.6.1 and
    /// 7.7.6). Answers whether the stream has begun after it. `out` then has the answer's bytes and no others, `limit`
    /// of them at most. Where memory is refused (`Memory`), the answer is longer (`TooLong`), or most of its rectangles
    /// wouldn't be in ZRLE, or there are none (`NotWorthIt`), what `out` has is to be sent to nobody. The last is known
    /// before anything is compressed.
    pub fn write(
        &mut self,
        cut: &Cut,
        area: &Rect,
        style: &Style,
        begun: bool,
        limit: usize,
        out: &mut Vec<u8>,
    ) -> Result<bool, Unwritten>
        requires { IsWithin area.now cut.now.width cut.now.height }
        ensures ok { IfOk result (λ now.
            IsWholeOf (style_in style.now) cut.now area.now begun now out.new.items) }
        ensures within { OnOk result (length out.new.items ≤ limit) }
        ensures err { IfErr result (λ why. IsWhy why limit out.new.items) }
    {
        out.clear();
        self.plan.clear();
        plan_rectangles(cut, area, &mut self.plan)?;
        let plan = self.plan.as_slice();
        if !is_mostly_zrle(plan) {
            return Err(Unwritten::NotWorthIt);
        }
        self.writer.make_parts(style, cut, plan);
        append_front(cut, plan.len() as u64, out)?;
        append_all(&mut self.writer, style, cut, plan, begun, limit, out)
    }
}
