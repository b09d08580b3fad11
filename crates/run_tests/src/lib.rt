//! Tests of `reflector` over links in memory: viewers that stall, a relay that is full, and places that are used again
//! after each way of leaving.
//! Update n paints colour n all over a screen of 2 by 1, or rectangles of one of 34 by 33, which viewers follow by code
//! of their own. A call that is held counts its turns, and fails at 20,000,000.
#![tactic(auto)]

#[cfg(test)]
mod board;
#[cfg(test)]
mod bytes;
#[cfg(test)]
mod courses;
#[cfg(test)]
mod dead_links;
#[cfg(test)]
mod ends;
#[cfg(test)]
mod follower;
#[cfg(test)]
mod leavings;
#[cfg(test)]
mod painted;
#[cfg(test)]
mod peer;
#[cfg(test)]
mod picture;
#[cfg(test)]
mod queue;
#[cfg(test)]
mod sight;
#[cfg(test)]
mod wire;
