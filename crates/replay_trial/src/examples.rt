//! Each script that `examples/README.md` tells of, with what lies beside it.

use crate::case::plays;
use std::fs;
use std::test::Fail;

/// The examples, each with the exit status of `reflectord replay`.
const EXAMPLES: [(&str, u8); 9] = [
    ("two-pixels", 0),
    ("hello", 0),
    ("slow-viewer", 0),
    ("view-only", 0),
    ("two-hands", 0),
    ("format-change", 0),
    ("new-size", 3),
    ("host-fault", 3),
    ("viewer-fault", 0),
];

/// Plays each example, and says whether it prints what lies beside it.
pub fn play_examples(rt: &HostRuntime) -> Result<(), Fail> {
    for (name, status) in EXAMPLES {
        if prints_as_told(rt, name, status)? {
            println!(rt; "{name}: as told")?;
        } else {
            println!(rt; "{name}: otherwise")?;
        }
    }
    Ok(())
}

/// Whether a script prints what lies beside it, with this status.
fn prints_as_told(rt: &HostRuntime, name: &str, status: u8) -> Result<bool, Fail> {
    let script_file = format!(in rt.alloc(); "examples/{name}.script")?;
    let printed_file = format!(in rt.alloc(); "examples/{name}.printed")?;
    let script = fs::read_to_string(rt, script_file.as_str())?;
    let told = fs::read_to_string(rt, printed_file.as_str())?;
    Ok(plays(rt.alloc(), script.as_bytes(), told.as_str(), status))
}
