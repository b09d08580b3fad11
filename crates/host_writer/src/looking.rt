//! The look that finds whether the host is to be asked for what is new.

ghost use Rattle.host_writer.specs.Moment.{LooksOnce};

use crate::saying::{REQUEST_LEN, Saying};
use reflect_core::ScreenSource;

/// Looks at the source. Where the reply is above 0 and above each reply before it, the request is begun. It answers
/// whether that is so.
pub(crate) fn look<S: ScreenSource>(
    source: &mut S,
    asked: &mut u64,
    request: &[u8; REQUEST_LEN],
    saying: &mut Saying,
) -> bool
    ensures { LooksOnce S.looks request.now source.old source.new asked.old asked.new saying.new }
{
    let looked = source.look();
    let has_risen = *asked < looked;
    *asked = (*asked).max(looked);
    *saying = Saying::of_request(request, has_risen);
    has_risen
}
