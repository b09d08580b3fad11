//! Tests of `roles` and `input_relay`, which are in their own crate so that each of those is proved once.
#![tactic(auto)]

#[cfg(test)]
mod held;
#[cfg(test)]
mod queue;
#[cfg(test)]
mod strokes;
