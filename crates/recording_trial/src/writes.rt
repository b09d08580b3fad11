//! Writing a recording of what a server says.

use crate::words::{bytes_of, parted, print_bytes};
use recording::{FIRST_LINE, LONGEST_SPELLING, RecordingWriter};
use std::test::Fail;

/// Adds the block that waits to the file.
fn add_block(
    writer: &mut RecordingWriter,
    room: &mut [u8],
    file: &mut Vec<u8>,
) -> Result<(), Fail> {
    if room.len() < LONGEST_SPELLING {
        return Err(Fail::new("no room for a block"));
    }
    let count = writer.flush(room);
    file.extend_from_slice(&room[..count])?;
    Ok(())
}

/// Adds bytes that came at this time, and the blocks that become full.
fn add(
    writer: &mut RecordingWriter,
    time: u32,
    bytes: &[u8],
    room: &mut [u8],
    file: &mut Vec<u8>,
) -> Result<(), Fail> {
    let mut left = bytes;
    // One turn more than there are bytes: the first may only flush what came before.
    for _ in 0..bytes.len().saturating_add(1) {
        let kept = writer.keep(time.max(writer.time()), left);
        left = left.get(kept..).unwrap_or(&[]);
        if !left.is_empty() {
            add_block(writer, room, file)?;
        }
    }
    Ok(())
}

/// Plays a line with a name, and then with times and what was said at each.
pub(crate) fn write_file(rt: &HostRuntime, line: &str) -> Result<(), Fail> {
    let alloc = rt.alloc();
    let (name, line) = parted(line);
    let mut writer = RecordingWriter::new(alloc)?;
    let mut room = vec![in alloc; 0; LONGEST_SPELLING]?;
    let mut file = Vec::from_slice(alloc, FIRST_LINE.as_slice())?;
    let mut rest = line;
    for _ in 0..line.len() {
        if rest.is_empty() {
            break;
        }
        let (time, behind) = parted(rest);
        let (word, behind) = parted(behind);
        let time = time.parse::<u32>()?;
        let said = bytes_of(alloc, word)?;
        add(
            &mut writer,
            time,
            said.as_slice(),
            room.as_mut_slice(),
            &mut file,
        )?;
        rest = behind;
    }
    add_block(&mut writer, room.as_mut_slice(), &mut file)?;
    print!(rt; "{name}: ")?;
    print_bytes(rt, file.as_slice())?;
    println!(rt)?;
    Ok(())
}
