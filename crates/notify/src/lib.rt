//! What std lacks for a program that is watched: the socket at which systemd hears of a service (sd_notify(3)), and
//! whether standard error has room. No clause says what the system does with a notice. Memory: none. Handles: Net.
#![tactic(auto)]

mod address;
mod notifier;
mod room;

pub use address::address_of;
pub use notifier::Notifier;
pub use room::standard_error_has_room;
