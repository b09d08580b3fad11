//! What C calls: the benchmarks below `bench/` (`bench`), and `tools/fuzz` (`fuzz`).
#![tactic(auto)]

mod bench;
mod fuzz;
