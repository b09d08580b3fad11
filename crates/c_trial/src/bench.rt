//! What the benchmarks below `bench/` call from C. Each export runs public calls of the crates below.

mod answers;
mod host;
mod memory;
mod rows;
