//! What stands in a line.

ghost use Rattle.std.specs.Prelude.{◌≤◌};

use std::alloc::Global;

/// How many bytes of those that are seen are shown at most.
const MOST_SHOWN: usize = 64;

/// Numbers, colours and bytes, each in their order.
#[derive(Drop)]
pub struct Values {
    pub numbers: Vec<u64>,
    pub colours: Vec<u32>,
    pub bytes: Vec<u8>,
}

/// The number that these digits spell, in this base.
fn number_of(digits: &[u8], base: u32) -> Option<u64>
    requires least { 2 ≤ base }
    requires most { base ≤ 16 }
{
    let mut number: u64 = 0;
    for digit in digits {
        let value = char::from(*digit).to_digit(base)?;
        number = number
            .checked_mul(u64::from(base))?
            .checked_add(u64::from(value))?;
    }
    Some(number)
}

impl Values {
    /// None.
    pub fn new(alloc: Global) -> Self {
        Values {
            numbers: Vec::new(alloc),
            colours: Vec::new(alloc),
            bytes: Vec::new(alloc),
        }
    }

    /// Forgets all.
    pub fn clear(&mut self) {
        self.numbers.clear();
        self.colours.clear();
        self.bytes.clear();
    }

    /// Reads the words of a text. A number has decimal digits. A colour, or a pixel value, is an `x` and hexadecimal
    /// digits. Bytes are a `#` and two hexadecimal digits each.
    pub fn read(&mut self, text: &str) -> Option<()> {
        self.clear();
        for word in text.split(' ') {
            self.push(word.as_bytes())?;
        }
        Some(())
    }

    /// Reads a word.
    fn push(&mut self, word: &[u8]) -> Option<()> {
        match word.split_first() {
            None => Some(()),
            Some((b'x', digits)) => {
                let colour = u32::try_from(number_of(digits, 16)?).ok()?;
                self.colours.push(colour).ok()
            }
            Some((b'#', digits)) => self.push_bytes(digits),
            Some(_) => self.numbers.push(number_of(word, 10)?).ok(),
        }
    }

    /// Reads two digits for each byte.
    fn push_bytes(&mut self, digits: &[u8]) -> Option<()> {
        for pair in digits.chunks(2) {
            let byte = u8::try_from(number_of(pair, 16)?).ok()?;
            self.bytes.push(byte).ok()?;
        }
        Some(())
    }

    /// Adds numbers.
    pub fn tell(&mut self, numbers: &[u64]) -> Option<()> {
        self.numbers.extend_from_slice(numbers).ok()
    }

    /// Adds colours.
    pub fn show(&mut self, colours: &[u32]) -> Option<()> {
        self.colours.extend_from_slice(colours).ok()
    }

    /// Adds the colours at these places of a screen.
    pub fn pick(&mut self, screen: &[u32], places: &[u64]) -> Option<()> {
        for place in places {
            let colour = screen.get(usize::try_from(*place).ok()?)?;
            self.show(&[*colour])?;
        }
        Some(())
    }

    /// Adds bytes, up to 64 in all.
    pub fn spell(&mut self, bytes: &[u8]) -> Option<()> {
        let left = MOST_SHOWN.saturating_sub(self.bytes.len());
        let (shown, _) = bytes.split_at(left.min(bytes.len()));
        self.bytes.extend_from_slice(shown).ok()
    }

    /// Adds how many bytes a text has, and its bytes, of which those that are equal to the one before are left out.
    pub fn tell_text(&mut self, text: &[u8]) -> Option<()> {
        self.tell(&[text.len() as u64])?;
        let mut last = None;
        for byte in text {
            if last != Some(*byte) {
                self.bytes.push(*byte).ok()?;
            }
            last = Some(*byte);
        }
        Some(())
    }

    /// Whether these are the same.
    pub fn are(&self, others: &Values) -> bool {
        self.numbers.as_slice() == others.numbers.as_slice()
            && self.colours.as_slice() == others.colours.as_slice()
            && self.bytes.as_slice() == others.bytes.as_slice()
    }
}
