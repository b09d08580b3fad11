//! What `serve` waits with over TCP: seats, links and doors, and a list of the viewers that are there.
//!
//! A place's thread waits in one `epoll` for its viewer's socket and for an alarm; the host's writer rests until it is
//! rung. No contract says that a wait ends, that a ring wakes, or how long anything lasts. Memory: a viewer's link
//! keeps up to 65,536 bytes. Handles: Wait where a call may wait, Net where a seat is made.
#![tactic(auto)]

mod account;
mod bare;
mod called;
mod caller;
mod desk;
mod everyone;
mod greeted;
mod greeting;
mod guesses;
mod hello;
mod host;
mod host_listener;
mod joining;
mod key;
mod knocker;
mod lobby;
mod messages;
mod newcomer;
mod noted;
mod options;
mod port;
mod porter;
mod refusal;
mod refused;
mod role_listener;
mod seat;
mod send_buffer;
mod socket;
mod tcp;
mod unlocked;
mod web;
mod whence;
mod writer_seat;

pub use called::{NotCalled, RoleCaller};
pub use caller::WebEntry;
pub use desk::{Comer, Desk, HostCard, RunCard, Totals, ViewerCard};
pub use everyone::Everyone;
pub use greeted::GreetedSocket;
pub use greeting::Greeting;
pub use host::HostLink;
pub use host_listener::{HostCall, HostListener};
pub use joining::JoiningLink;
pub use key::Key;
pub use lobby::{Lobby, TcpDoor, ViewerLink};
pub use messages::MessageSocket;
pub use newcomer::TcpEntry;
pub use noted::{Closing, Gathering, Noted};
pub use options::{outlast, outlast_host};
pub use porter::{MOST_GUESTS, TcpPorter, WebPorter};
pub use refusal::{no_entry_bytes, no_host_bytes, refusal_bytes};
pub use role_listener::{Arrival, Entrant, RoleListener};
pub use seat::Seat;
pub use socket::{HostSocket, Socket};
pub use tcp::ViewerTcpLink;
pub use web::BrowserLink;
pub use whence::Whence;
pub use writer_seat::WriterSeat;
