//! What threads take that share a screen or a relay: `bench_threads screen ROUNDS LOOKS`, or
//! `bench_threads relay SENDERS INPUTS` with 1 to 64 senders. Without words it does nothing.
#![tactic(auto)]

mod answered;
mod beside;
mod calls;
mod relay;
mod scene;
mod screen;

use std::env;
use std::test::Fail;

fn main(rt: HostRuntime) -> Result<(), Fail> {
    let mut words = env::args(&rt)?;
    words.next();
    let (Some(what), Some(first), Some(second)) = (words.next(), words.next(), words.next()) else {
        return Ok(());
    };
    match what.as_str() {
        "screen" => screen::print(rt, rt.alloc(), first.parse()?, second.parse()?),
        "relay" => relay::print(rt, rt.alloc(), first.parse()?, second.parse()?),
        _ => Ok(()),
    }
}
