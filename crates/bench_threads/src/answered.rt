//! One changed tile, from its put to its answer.

ghost use Rattle.std.specs.Prelude.{◌≡◌, ◌+◌, ◌*◌, length, IfOk};

use crate::scene::{ALL, Brush, Room, TILE, cut};
use fault::Fault;
use joined_runs::RectForm;
use pixel_format::Format;
use raster::Encoding;
use reflect_core::{Cut, Puts, ScreenSource};
use rfb_wire::Choice;
use std::alloc::Global;
use std::time::{Clock, Instant};
use update_encoder::{Answer, Style};

pub const NAMES: [&str; 2] = ["answer-tile", "put-cut-answer-tile"];

/// The bytes of a rectangle of one tile in Raw, in the host's format: its header, and four bytes a pixel.
const TILE_BYTES: usize = 12 + 16 * 16 * 4;

/// Room for the pixel values of a run, and for one rectangle.
#[derive(Drop)]
struct Piece {
    values: Vec<u32>,
    out: Vec<u8>,
    pub ghost values_are: { length values.items ≡ 16 * 1920 },
    pub ghost out_is: { length out.items ≡ 12 + 64 * 1920 },
}

impl Piece {
    fn new(alloc: Global) -> Result<Piece, Fault> {
        let values = vec![in alloc; 0u32; 16 * 1920]?;
        let out = vec![in alloc; 0u8; 12 + 64 * 1920]?;
        Ok(Piece { values, out })
    }

    /// Writes each rectangle of an answer over the one before, and answers how many bytes they have.
    fn write(&mut self, cut: &Cut) -> usize
        requires { (cut.now.width ≡ 1920) × (cut.now.height ≡ 1080) }
    {
        let style = Style {
            runs: RectForm::OfRows,
            format: Format::HOST,
            choice: Choice {
                kind: Encoding::Raw,
                copy: false,
                resizes: false,
                zrle: false,
            },
        };
        let mut answer = Answer::start(cut, &ALL, style);
        let mut total: usize = 0;
        for _turn in 0..answer.count() {
            let next = answer.next(cut, self.values.as_mut_slice(), self.out.as_mut_slice());
            total = total.saturating_add(next.unwrap_or(0));
        }
        total
    }
}

/// The time of the answer, and that of a put of one tile, its cut and its answer together, if each was had.
fn once<P: Puts, S: ScreenSource, R: Clock>(
    rt: &R,
    brush: &mut Brush,
    puts: &mut P,
    source: &mut S,
    room: &mut Room,
    piece: &mut Piece,
) -> Option<(u128, u128)>
    requires puts { (P.width puts.old ≡ 1920) × (P.height puts.old ≡ 1080) }
    requires source { (S.width source.old ≡ 1920) × (S.height source.old ≡ 1080) }
    ensures puts { (P.width puts.new ≡ 1920) × (P.height puts.new ≡ 1080) }
    ensures source { (S.width source.new ≡ 1920) × (S.height source.new ≡ 1080) }
{
    let patch = brush.painted(TILE, 7).ok()?;
    let start = Instant::now(rt).ok()?;
    let put = puts.put(patch).is_ok();
    let cut = source.cut(&ALL, &room.have, None, &mut room.cut).is_ok();
    let answered = Instant::now(rt).ok()?;
    let bytes = piece.write(&room.cut);
    let answer = answered.elapsed(rt).ok()?.as_nanos();
    let all = start.elapsed(rt).ok()?.as_nanos();
    room.keep_all();
    if put && cut && bytes == TILE_BYTES {
        Some((answer, all))
    } else {
        None
    }
}

/// The best times in nanoseconds, if each call was had.
pub fn best<P: Puts, S: ScreenSource, R: Clock>(
    rt: &R,
    alloc: Global,
    puts: &mut P,
    sources: &mut [S],
    rounds: u64,
) -> Option<[u128; 2]>
    requires puts { (P.width puts.old ≡ 1920) × (P.height puts.old ≡ 1080) }
    requires sources { (s : S) → (S.width s ≡ 1920) × (S.height s ≡ 1080) }
    ensures { (P.width puts.new ≡ 1920) × (P.height puts.new ≡ 1080) }
{
    let source = sources.first_mut()?;
    let mut room = Room::new(alloc).ok()?;
    let mut piece = Piece::new(alloc).ok()?;
    let mut brush = Brush::new(alloc).ok()?;
    cut(rt, source, &mut room)?;
    room.keep_all();
    let (mut answer, mut all) = (u128::MAX, u128::MAX);
    for _ in 0..rounds {
        let times = once(rt, &mut brush, puts, source, &mut room, &mut piece)?;
        answer = answer.min(times.0);
        all = all.min(times.1);
    }
    Some([answer, all])
}
