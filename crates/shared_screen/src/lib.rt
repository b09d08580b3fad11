//! The shared screen: one thread puts updates, others look at the tally and cut.
//!
//! It stands on two parts. The history is a list of changes, which only contracts see, and the tally is read off the
//! number of these changes, which is one word that threads share: a look is one load, and a put or a raise is one
//! exchange. A pair is two copies that show boards: readers see one of them while the publisher changes the other.
//!
//! `shared` takes memory, and fails where it is refused (`Memory`) or no place is left (`NoPlace`). `Publisher::put`,
//! and the end and the drop of a publisher, may wait for a watcher that is inside a copy; so a publisher keeps a handle
//! that may wait. A watcher, its eye and its glance never wait and take no memory, and the look of a watcher enters no
//! copy.
#![tactic(auto)]

mod author;
mod change;
mod change_count;
mod demand;
mod ends;
mod eye;
mod front;
mod glance;
mod half;
mod law;
mod making;
mod naming;
mod news;
mod opening;
mod pair_news;
mod published;
mod publisher;
mod publishes;
mod publishing;
mod raiser;
mod spares;
mod stamped;
mod tally_news;
mod watcher;

pub use author::Author;
pub use change::Change;
pub use change_count::ChangeCount;
pub use ends::{BESIDE_PLACES, eyes};
pub use eye::Eye;
pub use front::HistoryFront;
pub use glance::Glance;
pub use law::Law;
pub use making::shared;
pub use naming::{Naming, Publicity};
pub use news::News;
pub use opening::Opened;
pub use pair_news::PairNews;
pub use published::Published;
pub use publisher::Publisher;
pub use publishes::Publishes;
pub use publishing::{news_of, opened, publish};
pub use raiser::{Raiser, tally};
pub use spares::Spares;
pub use stamped::Stamped;
pub use tally_news::TallyNews;
pub use watcher::Watcher;
