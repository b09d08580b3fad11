//! The command line of reflectord: `serve` with its options, `control`, which asks something of a run, `show`, which
//! makes pictures of a recording or its index, and `replay`, which plays a script from standard input. RFC 6143 has no
//! part in it.
//!
//! Memory: for clap's command and matches, for the texts that are kept, and for the text of a bad line.
#![tactic(auto)]

mod arguments;
mod asking;
mod bad_line;
mod command;
mod law;
mod options;
mod program;
mod serve_command;
mod showing;
mod task;

pub use asking::ask;
pub use bad_line::{BadLine, explain};
pub use law::worked_lines;
pub use options::settings;
pub use program::{perform, run, run_words};
pub use showing::show_words;
pub use task::Task;
