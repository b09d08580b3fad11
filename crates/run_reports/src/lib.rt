//! What those who watch over a run are told: an operator, Prometheus, systemd and its journal, a balancer, and readers
//! of the log.
//!
//! Everything here is a value; the caller sends the texts. Memory: for texts. Handles: none.
#![tactic(auto)]

mod counters;
mod event_counts;
mod families;
mod gravity;
mod health;
mod json;
mod ledger;
mod lines;
mod metrics;
mod notice;
mod report;
mod state;

pub use counters::{ByRole, Counters, Lag, RecordingCounts};
pub use event_counts::{CountedEvent, EventCounts};
pub use gravity::{Gravity, prefix_of};
pub use health::{Health, health_of, health_word};
pub use json::state_json;
pub use ledger::{Ledger, Paper};
pub use metrics::metrics_text;
pub use notice::{Notice, Ready, notice_text};
pub use report::{HostReport, PlayedReport, RecordingReport, RecordingState, Report, ViewerReport};
pub use state::state_text;
