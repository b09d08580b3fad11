//! Pixel formats (RFC 6143, 7.4), each by its 16 bytes.

use crate::lines::Tried;
use crate::values::Values;
use fault::Fault;
use pixel_format::Format;
use std::alloc::Global;

/// How many accepted values of a byte are told one by one at most.
const MOST_TOLD: u64 = 6;

/// Whether 16 bytes are refused as no format.
fn is_refused(bytes: &[u8; 16]) -> bool {
    matches!(Format::read(bytes), Err(Fault::BadFormat))
}

/// The format of these bytes, and the host's where there are none.
pub fn format_of(bytes: &[u8]) -> Option<Format> {
    if bytes.is_empty() {
        return Some(Format::host());
    }
    Format::read(bytes.as_array()?).ok()
}

/// Of the values that the byte at a position may have, those that are accepted: the first six, and how many they are.
fn accepted(bytes: &[u8; 16], position: u64, seen: &mut Values) -> Option<()> {
    let mut count: u64 = 0;
    for value in 0..=255 {
        let mut changed = *bytes;
        *changed.get_mut(position as usize)? = value;
        if !is_refused(&changed) {
            if count < MOST_TOLD {
                seen.tell(&[u64::from(value)])?;
            }
            count = count.saturating_add(1);
        }
    }
    seen.tell(&[count])
}

/// Puts a value over the first of some bytes, and gets it from there.
fn put_and_get(format: &Format, value: u32, before: &[u8], seen: &mut Values) -> Option<()> {
    let mut room = *before.as_array::<5>()?;
    format.put_pixel(value, &mut room);
    seen.show(&[format.get_pixel(&room)])?;
    seen.spell(&room)
}

/// The bytes of a row of colours, or of pixel values.
fn row(alloc: Global, format: &Format, word: &str, row: &[u32], seen: &mut Values) -> Option<()> {
    let mut out = vec![in alloc; 0xEEu8; 4 * row.len().min(64)].ok()?;
    let (out, _) = out
        .as_mut_slice()
        .split_at_mut_checked(format.bytes() * row.len())?;
    if word == "tints" {
        format.tint_row(row, out);
    } else {
        format.put_values(row, out);
    }
    seen.tell(&[u64::from(format.spells_words())])?;
    seen.spell(out)
}

/// The values of three colours at once, and then of each of them alone.
fn tint(format: &Format, colours: &[u32], seen: &mut Values) -> Option<()> {
    let colours = colours.as_array::<3>()?;
    let mut values = [7; 3];
    format.tint_values(colours, &mut values);
    seen.show(&values)?;
    seen.show(&colours.map(|colour| format.tint(colour)))
}

/// Lines of formats.
#[derive(Drop)]
pub struct Formats;

impl Tried for Formats {
    fn play(&mut self, alloc: Global, word: &str, given: &Values, seen: &mut Values) -> Option<()> {
        let bytes = given.bytes.as_slice();
        let (head, rest) = bytes.split_at(bytes.len().min(16));
        match word {
            "refused" => return seen.tell(&[u64::from(is_refused(head.as_array()?))]),
            "accepted" => return accepted(head.as_array()?, *given.numbers.first()?, seen),
            _ => (),
        }
        let format = format_of(head)?;
        match word {
            "format" => {
                let mut written = [0xEE; 16];
                format.write(&mut written);
                let is_same = format == Format::HOST;
                let said = [is_same, format.is_host(), format.keeps_apart()];
                seen.tell(&said.map(u64::from))?;
                seen.spell(&written)
            }
            "tint" => tint(&format, given.colours.as_slice(), seen),
            "pixel" => put_and_get(&format, *given.colours.first()?, rest, seen),
            "tints" | "values" => row(alloc, &format, word, given.colours.as_slice(), seen),
            _ => None,
        }
    }
}
