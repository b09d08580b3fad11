//! What serving a viewer takes besides a link and a screen, where there is no host to type to and no other thread to
//! wait for.

ghost use Rattle.std.specs.Prelude.{◌≡◌, []};
ghost use Rattle.fault.specs.declared.kinds.Fault.TheVariants.{Gone};

use fault::Fault;
use link::{Rest, StopFlag};
use roles::{Input, InputSink};
use std::sync::Wait;

/// A sink that takes no input: a viewer that only looks on sends none.
#[derive(Drop)]
pub struct NoInput;

impl InputSink for NoInput {
    ghost sent = { λ _. [] };

    ghost may_refuse = { λ fault. fault ≡ Gone };

    fn send(&mut self, input: Input) -> Result<(), (Fault, Input)> {
        Err((Fault::Gone, input))
    }
}

/// A flag that nobody sets.
#[derive(Drop)]
pub struct NoStop;

impl StopFlag for NoStop {
    ghost was_set = { λ flag. Unit {0} };

    fn is_set(&self) -> bool {
        false
    }
}

/// A rest that is over at once.
#[derive(Drop)]
pub struct NoRest;

impl Rest for NoRest {
    fn rest<R: Wait>(&self, _rt: &R) {}
}
