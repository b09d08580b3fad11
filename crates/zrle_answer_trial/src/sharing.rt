//! Two viewers that are shown the same.

ghost use Rattle.std.specs.Prelude.{◌≡◌, ◌*◌, length, IfOk};
ghost use Rattle.raster.specs.Screen.{IsWithin};
ghost use Rattle.raster.specs.Size.{IsScreenSize};

use painter::{Board, Painter, Shown, Wanted};
use raster::Rect;
use reflect_core::Cut;
use std::alloc::Global;
use std::sync::Arc;
use std::test::Fail;
use tiles::Have;
use update_encoder::Style;
use zrle_answer::AnswerWriter;

/// A cut of a screen of these colours, row after row, all of whose tiles are due and none of which was sent before. Its
/// viewers share parts.
pub(crate) fn shared_cut_of(
    alloc: Global,
    width: u64,
    height: u64,
    colours: &[u32],
) -> Result<Cut, Fail>
    requires size { IsScreenSize width height }
    requires count { length colours.now ≡ width * height }
    ensures { IfOk result (λ cut. (cut.width ≡ width) × (cut.height ≡ height)) }
{
    let all = Rect {
        x: 0,
        y: 0,
        w: width,
        h: height,
    };
    let mut painter = Painter::new(alloc, width, height)?;
    painter.put(all, colours);
    let black = Board::new(alloc, width, height)?;
    let mut board = Board::new(alloc, width, height)?;
    if black.number() == 0 {
        let wanted = Wanted {
            forms: None,
            parts: true,
        };
        board.catch_up(&black, &painter.patch()?, wanted);
    }
    let shown = Shown::new(alloc, Arc::new(alloc, board)?)?;
    let mut cut = Cut::new(alloc, width, height)?;
    cut.fill(&shown, &all, &Have::new(alloc, width, height)?, None);
    Ok(cut)
}

/// Fails unless two viewers that share the parts of a cut are each sent this, which was written for one that shares none.
pub(crate) fn expect_the_same(
    alloc: Global,
    cut: &Cut,
    area: &Rect,
    style: &Style,
    begun: bool,
    alone: &[u8],
) -> Result<(), Fail>
    requires { IsWithin area.now cut.now.width cut.now.height }
{
    for _ in 0..2 {
        let mut out = Vec::new(alloc);
        let mut writer = AnswerWriter::new(alloc)?;
        let written = writer.write(cut, area, style, begun, alone.len(), &mut out);
        if written.is_err() || out.as_slice() != alone {
            return Err(Fail::new("who shares parts is sent something else"));
        }
    }
    Ok(())
}
