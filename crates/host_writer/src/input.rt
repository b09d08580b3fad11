//! Takes the input of viewers from the relay, and begins to say it.

ghost use Rattle.std.specs.Prelude.{◌≡◌, length};
ghost use Rattle.host_writer.specs.Dropping.{IsCounted};
ghost use Rattle.host_writer.specs.Moment.{Takes};

use crate::dropped::{DropCount, passes};
use crate::input_source::InputSource;
use crate::saying::Saying;
use roles::Strokes;

/// Takes the next input from the relay, and answers whether there was one. Where the input passes, given all that was
/// taken before it, its spelling is begun; otherwise it is dropped, and counted.
pub(crate) fn take_input<K: InputSource, D: DropCount>(
    taker: &mut K,
    strokes: &mut Strokes,
    drops: &mut D,
    saying: &mut Saying,
) -> bool
    ensures relay { K.relay taker.new ≡ K.relay taker.old }
    ensures places { length strokes.new.counts ≡ length strokes.old.counts }
    ensures counted { IsCounted (K.taken taker.old) strokes.old (D.dropped drops.old)
        → IsCounted (K.taken taker.new) strokes.new (D.dropped drops.new) }
    ensures takes { Takes result (K.taken taker.old) (K.taken taker.new) strokes.old strokes.new
        saying.old saying.new }
{
    match taker.take() {
        Some((place, input)) => {
            let is_told = passes(strokes, drops, place, &input);
            *saying = Saying::of_input(input, is_told);
            true
        }
        None => false,
    }
}
