//! Reads the files of a web port, once, at the start. `web_site` decides which of them go into the table.
//!
//! Memory: for the table, and for names and paths on the way to it. Handles: none.
#![tactic(auto)]

mod disk;
mod fault;
mod system;
mod walk;

pub use disk::Disk;
pub use fault::RootFault;
pub use system::SystemDisk;
pub use walk::{MOST_FOLDERS, MOST_NAMES, read_all};
