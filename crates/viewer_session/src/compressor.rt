//! Writes answers whole, in ZRLE.

ghost use Rattle.std.specs.Prelude.{IfSome};
ghost use Rattle.raster.specs.Screen.{IsWithin};
ghost use Rattle.update_encoder.specs.Style.{style_in};
ghost use Rattle.zrle_answer.specs.Written.{IsWholeOf};

use raster::Rect;
use reflect_core::Cut;
use std::alloc::Global;
use update_encoder::Style;
use zrle_answer::AnswerWriter;

/// The most bytes of an answer that is written whole.
const LONGEST_WHOLE: usize = 1 << 20;

/// Writes a viewer's answers in ZRLE. What that takes is made for the first of them, and kept for the others.
#[derive(Drop)]
pub(crate) struct Compressor {
    alloc: Global,
    writer: Option<AnswerWriter>,
}

impl Compressor {
    /// One that hasn't written yet. It takes no memory.
    pub(crate) fn new(alloc: Global) -> Self {
        Compressor {
            alloc,
            writer: None,
        }
    }

    /// What answers are written with. There is none where memory is refused.
    fn writer(&mut self) -> Option<&mut AnswerWriter> {
        if self.writer.is_none() {
            self.writer = AnswerWriter::new(self.alloc).ok();
        }
        self.writer.as_mut()
    }

    /// An answer of what a cut shows in the due tiles of an area, for a viewer whose zlib stream has `begun` or has
    /// not, behind whether it has begun after the answer. There is none where memory is refused, where most of the
    /// answer wouldn't be in ZRLE, or where it has more than `LONGEST_WHOLE` bytes.
    pub(crate) fn write(
        &mut self,
        cut: &Cut,
        area: &Rect,
        style: &Style,
        begun: bool,
    ) -> Option<(bool, Vec<u8>)>
        requires { IsWithin area.now cut.now.width cut.now.height }
        ensures { IfSome result (λ whole.
            IsWholeOf (style_in style.now) cut.now area.now begun whole.0 whole.1.items) }
    {
        let mut bytes = Vec::new(self.alloc);
        let writer = self.writer()?;
        match writer.write(cut, area, style, begun, LONGEST_WHOLE, &mut bytes) {
            Ok(now) => Some((now, bytes)),
            Err(_) => None,
        }
    }
}
