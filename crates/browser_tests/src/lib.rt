//! Tests of what browsers are told: of the web ports of `connections`, of `serve` behind them, over loopback alone, and
//! of the files that `web_root` reads for them.
//! They are in their own crate so that what they test is proved once.
#![tactic(auto)]

#[cfg(test)]
mod asks;
#[cfg(test)]
mod browser;
#[cfg(test)]
mod clock;
#[cfg(test)]
mod files;
#[cfg(test)]
mod guessers;
#[cfg(test)]
mod host;
#[cfg(test)]
mod loopback;
#[cfg(test)]
mod port;
#[cfg(test)]
mod ports;
#[cfg(test)]
mod served;
#[cfg(test)]
mod times;
