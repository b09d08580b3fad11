//! What shows that a run was run.

ghost use Rattle.std.specs.Prelude.{◌≡◌};
ghost use Rattle.std.specs.Borrow.{ftrue};
ghost use Rattle.reflector.specs.Course.{Course};

use std::marker::{Brand, Model, PhantomData};

/// Shows that a run was run: only `run_all` hands one out. Clauses read what the run was (`course`). At run time it has
/// no bytes.
#[derive(Drop)]
pub struct Ran {
    marker: PhantomData<u8>,
    pub ghost course: { Course },
}

impl Model for Ran {
    ghost also_owns = { λ _. ftrue };
}

/// Names what a run was. No value of such a type is ever made.
pub(crate) trait Told {
    ghost use Rattle.reflector.specs.Course.{Course};

    /// What it was.
    ghost course: { Course };
}

impl Told for Brand {
    ghost use Rattle.reflector.specs.Course.{no_course};

    ghost course = { no_course };
}

impl Ran {
    /// Shows that there was the run that `C` names.
    pub(crate) fn new<C: Told>() -> Ran
        ensures { result.course ≡ C.course }
    {
        Ran {
            marker: PhantomData,
        }
    }
}
