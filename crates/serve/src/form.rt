//! How viewers are answered.

ghost use Rattle.std.specs.Prelude.{◌≡◌};
ghost use Rattle.serve.specs.Runs.{form_for};

use settings::{Settings, rect_form_of};
use viewer_session::AnswerForm;

/// How all viewers are answered by these settings.
pub(crate) fn form_of(settings: &Settings) -> AnswerForm
    ensures { result ≡ form_for settings.now }
{
    AnswerForm {
        runs: rect_form_of(settings),
        zrle: !settings.no_zrle,
        copies: true,
    }
}
