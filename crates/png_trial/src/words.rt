//! Pictures as a line spells them.

use std::alloc::Global;
use std::test::Fail;

/// A width, a height, and the colours row after row.
type Picture = (u64, u64, Vec<u32>);

/// Adds the colours of a part of a line: `RRGGBB`, or `RRGGBB*COUNT` for that many times the same.
fn add_part(colours: &mut Vec<u32>, part: &str) -> Result<(), Fail> {
    let (text, count) = part.split_once('*').unwrap_or((part, "1"));
    let count = count.parse::<u64>()?;
    let colour = u32::from_str_radix(text, 16)?;
    for _ in 0..count {
        colours.push(colour)?;
    }
    Ok(())
}

/// The picture of a line: its width and height, and its colours, parted by commas.
pub(crate) fn picture_of(alloc: Global, line: &str) -> Result<Picture, Fail> {
    let (w, rest) = line.split_once(' ').unwrap_or(("0", line));
    let (h, parts) = rest.split_once(' ').unwrap_or(("0", rest));
    let mut colours = Vec::new(alloc);
    for part in parts.split(',') {
        add_part(&mut colours, part)?;
    }
    Ok((w.parse::<u64>()?, h.parse::<u64>()?, colours))
}
