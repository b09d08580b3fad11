//! Tests of what operators, machines and balancers are told and ask: `run_control`, `play_control`, `run_reports`,
//! `metrics_site`, `proxy_header` and `notify`, which are in their own crate so that each of those is proved once.
#![tactic(auto)]

#[cfg(test)]
mod doors;
#[cfg(test)]
mod metrics;
#[cfg(test)]
mod notifying;
#[cfg(test)]
mod origins;
#[cfg(test)]
mod playing;
#[cfg(test)]
mod reports;
#[cfg(test)]
mod requests;
#[cfg(test)]
mod state;
