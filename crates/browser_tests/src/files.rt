//! Files for browsers are read up to a bound, however long they are by then.

use std::fs;
use std::test::*;
use web_root::{Disk, SystemDisk};

/// A file of five bytes.
const NAME: &str = "five-bytes";

const FIVE: &[u8] = b"bytes";

/// How many bytes are read at most, and what is read.
const READ: &[(u64, &[u8])] = &[(0, b""), (3, b"byt"), (5, b"bytes"), (6, b"bytes")];

#[test]
fn files_are_read_up_to_a_bound(rt: HostRuntime) -> Result<(), Fail> {
    fs::write(&rt, NAME, FIVE)?;
    let disk = SystemDisk::new(rt, "five-");
    for (most, wanted) in READ {
        if disk.read(rt.alloc(), "bytes", *most)?.as_slice() != *wanted {
            return Err(Fail::new(*most));
        }
    }
    fs::remove_file(&rt, NAME)?;
    Ok(())
}
