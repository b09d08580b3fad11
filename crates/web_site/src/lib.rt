//! What a web port answers before a connection is a link: files that were read at the start, and the opening handshake
//! of a WebSocket (RFC 6455, section 4.2). HTTP itself is the kit's `http_server`.
//!
//! Nothing here reads a socket or a disk. Memory is taken for the table of files, and for a response's fields.
#![tactic(auto)]

mod admission;
mod fields;
mod guest;
mod landing;
mod media_type;
mod objection;
mod opening;
mod policy;
mod site;
mod table;
mod walk;

pub use admission::Admission;
pub use guest::{Guest, MOST_HEAD};
pub use landing::{Landing, start_for};
pub use media_type::MediaType;
pub use objection::Objection;
pub use opening::check_opening;
pub use site::Site;
pub use table::{FileTable, MOST_BYTES, MOST_FILES, TableFault, WebFile};
pub use walk::{Found, Step};
