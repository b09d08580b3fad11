//! What a session sends: a cut of the source, whose parts wait to be sent piece by piece.

ghost use Rattle.std.specs.Prelude.{◌≡◌, ℕ, ◌+◌, ◌*◌, ◌≤◌, Bool, true, if◌then◌else◌, is_some, [], ◌++◌, drop, length, IfOk, IfErr, IfSome};
ghost use Rattle.fault.specs.declared.kinds.Fault.TheVariants.{Memory, Gone};
ghost use Rattle.raster.specs.Screen.{IsWithin};
ghost use Rattle.raster.specs.Size.{IsScreenSize};
ghost use Rattle.reflect_core.specs.Sequential.{Begins};
ghost use Rattle.reflect_core.specs.Source.{IsCutOf};
ghost use Rattle.rfb_wire.specs.Writing.{bell_bytes};
ghost use Rattle.viewer_session.specs.Outgoing.{IsSmall, IsUpdateOf, answer_coming, longest_piece, size_and, text_message};

use crate::coming::Coming;
use crate::piece::Piece;
use crate::update::Update;
use fault::{Fault, LONGEST_TEXT};
use raster::{Rect, Size, TILE_SIDE};
use reflect_core::{Cut, ScreenSource};
use rfb_wire::{RECTANGLE_HEAD_LEN, TEXT_HEAD_LEN};
use std::alloc::Global;
use std::marker::Model;
use tiles::Have;

/// How many bytes a pixel of the widest format has (RFC 6143, 7.4).
const WIDEST_PIXEL: usize = 4;

/// A cut of the source, one piece of the bytes that wait to be sent, and what the cut sends after it. Contracts see the
/// cut, the piece's bytes, and all unsent bytes.
#[derive(Drop)]
pub(crate) struct Outgoing {
    cut: Cut,
    piece: Piece,
    strip: Vec<u32>,
    coming: Coming,
}

impl Model for Outgoing {
    ghost use Rattle.std.specs.Prelude.{◌++◌, length};
    ghost use Rattle.viewer_session.specs.Outgoing.{IsOutgoing, Sending, all_coming};

    ghost Value = { Sending };

    ghost view = { λ o. record {
      cut = o.cut;
      filled = o.piece.filled;
      piece = o.piece.unsent;
      unsent = o.piece.unsent ++ all_coming o.coming o.cut;
    } };

    ghost invariant = { λ o. IsOutgoing o.cut o.piece (length o.strip.items) o.coming };
}

impl Outgoing {
    /// An outgoing side on which nothing waits, for a screen of `width` by `height` pixels. All its room is taken here.
    /// It fails where memory is refused (`Memory`).
    pub(crate) fn new(alloc: Global, width: u64, height: u64) -> Result<Self, Fault>
        requires { IsScreenSize width height }
        ensures size { IfOk result (λ out. (out.cut.width ≡ width) × (out.cut.height ≡ height)) }
        ensures empty { IfOk result (λ out.
            (out.filled ≡ 0) × (out.piece ≡ []) × (out.unsent ≡ [])) }
        ensures err { IfErr result (λ fault. fault ≡ Memory) }
    {
        let cut = Cut::new(alloc, width, height)?;
        let piece = Piece::new(alloc, room_for(width))?;
        let strip = vec![in alloc; 0u32; (TILE_SIDE * width) as usize]?;
        Ok(Outgoing {
            cut,
            piece,
            strip,
            coming: Coming::nothing(),
        })
    }

    /// The last cut. Before the first it shows nothing.
    pub(crate) fn cut(&self) -> &Cut
        ensures { result.now ≡ self.now.cut }
    {
        &self.cut
    }

    /// The piece that is sent next: as long as it isn't empty, the first of the bytes that wait.
    pub(crate) fn piece(&self) -> &[u8]
        ensures value { result.now ≡ self.now.piece }
        ensures begins { Begins result.now self.now.unsent }
        ensures shows { length result.now ≡ 0 → self.now.unsent ≡ [] }
        ensures short { length result.now ≤ longest_piece self.now.cut.width }
    {
        self.piece.unsent()
    }

    /// This many bytes of the piece, from the first on, were sent. Once it is empty the next takes its place.
    pub(crate) fn sent(&mut self, count: usize)
        requires { count ≤ length self.old.piece }
        ensures cut { self.new.cut ≡ self.old.cut }
        ensures unsent { self.new.unsent ≡ drop count self.old.unsent }
        ensures few { length self.old.piece ≤ length self.old.unsent }
        ensures alone { self.old.unsent ≡ self.old.piece
            → (self.new.unsent ≡ self.new.piece) × (self.new.filled ≤ self.old.filled) }
    {
        self.piece.sent(count);
        if self.piece.unsent().is_empty() {
            self.coming
                .put_next(&self.cut, self.strip.as_mut_slice(), &mut self.piece);
        }
    }

    /// Further bytes of a hello wait, where nothing comes after the piece.
    pub(crate) fn append(&mut self, bytes: &[u8])
        requires room { self.old.filled + length bytes.now ≤ 65544 }
        requires alone { self.old.unsent ≡ self.old.piece }
        ensures cut { self.new.cut ≡ self.old.cut }
        ensures filled { self.new.filled ≡ self.old.filled + length bytes.now }
        ensures unsent { self.new.unsent ≡ self.old.unsent ++ bytes.now }
        ensures alone { self.new.unsent ≡ self.new.piece }
    {
        self.piece.append(bytes);
    }

    /// Cuts the source, once all bytes were sent. `since` is the number of the viewer's last answer, where copies of
    /// the host may be passed on to it. Nothing of the cut waits to be sent until `begin` is called.
    pub(crate) fn take<S: ScreenSource>(
        &mut self,
        source: &mut S,
        area: &Rect,
        have: &Have,
        since: Option<u64>,
    ) -> Result<u64, Fault>
        requires sent { length self.old.unsent ≡ 0 }
        requires within { IsWithin area.now (S.width source.old) (S.height source.old) }
        requires screen { (have.now.width ≡ S.width source.old)
            × (have.now.height ≡ S.height source.old) }
        requires room { (self.old.cut.width ≡ S.width source.old)
            × (self.old.cut.height ≡ S.height source.old) }
        ensures size { (S.width source.new ≡ S.width source.old)
            × (S.height source.new ≡ S.height source.old) }
        ensures room { (self.new.cut.width ≡ self.old.cut.width)
            × (self.new.cut.height ≡ self.old.cut.height) }
        ensures sent { (self.new.piece ≡ []) × (self.new.unsent ≡ []) }
        ensures grows { Begins (S.known source.old) (S.known source.new) }
        ensures ok { IfOk result (λ n. IsCutOf (S.known source.new) n area.now have.now since self.new.cut
            × (S.answered source.old ≤ n) × (n ≤ S.answered source.new)) }
        ensures cuts { IfOk result (λ n. S.cuts source.old n source.new) }
        ensures err { IfErr result (λ fault.
            (fault ≡ Gone) × S.may_end × (source.new ≡ source.old) × (self.new ≡ self.old)) }
    {
        self.coming = Coming::nothing();
        source.cut(area, have, since, &mut self.cut)
    }

    /// From now on these parts of the cut wait to be sent, in this order, and nothing else: a Bell, the text, a size
    /// and an answer.
    pub(crate) fn begin(
        &mut self,
        bell: bool,
        text: bool,
        size: Option<Size>,
        answer: Option<Update>,
    )
        requires text { text ≡ true → is_some self.old.cut.text ≡ true }
        requires size { IfSome size IsSmall }
        requires answer { IfSome answer (IsUpdateOf self.old.cut) }
        ensures cut { self.new.cut ≡ self.old.cut }
        ensures unsent { self.new.unsent ≡ (if bell then bell_bytes else [])
            ++ ((if text then text_message self.old.cut.text else [])
            ++ size_and size (answer_coming true answer self.old.cut)) }
    {
        self.coming = Coming {
            text,
            size,
            head: true,
            answer,
        };
        if bell {
            self.piece.put_bell();
        } else {
            self.coming
                .put_next(&self.cut, self.strip.as_mut_slice(), &mut self.piece);
        }
    }
}

/// The room for the longest piece over a screen of this width.
fn room_for(width: u64) -> usize
    requires { width ≤ 4096 }
    ensures { result ≡ longest_piece width }
{
    let longest_text = TEXT_HEAD_LEN + LONGEST_TEXT as usize;
    longest_text.max(RECTANGLE_HEAD_LEN + WIDEST_PIXEL * (TILE_SIDE * width) as usize)
}
