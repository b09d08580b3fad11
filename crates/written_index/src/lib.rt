//! Writes the index of a recording beside it, where it is missing.
//!
//! `write_index` opens the recording, makes its index anew (`rebuilt_index`), and writes it into a new file, which has
//! the name that an index of `serve --record` has. `specs/Paths` states which name that is. `write_into` does the
//! middle of it over any files. Memory: that of `rebuilt_index`, and the bytes of the index. Handles: `write_index`
//! takes `Files`, and all take `Wait`, since no clause says how long a file is.
#![tactic(auto)]

mod error;
mod file;
mod new_file;
mod path;

pub use error::IndexError;
pub use file::{index_of, write_index, write_into};
pub use new_file::NewFile;
pub use path::index_path;
