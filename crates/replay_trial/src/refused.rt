//! Scripts with what they print, as they lie in a file, and what becomes of them where memory is refused.

/// What came of playing a script.
#[derive(Clone, Copy, PartialEq, Eq)]
pub enum Outcome {
    /// It printed all of its lines, and ended without a fault.
    Whole,
    /// It printed the first of its lines, each whole, and ended for want of memory; or a viewer's text was lost.
    Refused,
    /// It ended in another way, or printed something else.
    Otherwise,
}

/// A script that ends well, what it prints, and what it prints where a viewer's text finds no memory.
#[derive(Clone, Copy)]
pub struct Case<'a> {
    pub name: &'a str,
    pub script: &'a str,
    printed: &'a str,
    without_text: Option<&'a str>,
}

impl<'a> Case<'a> {
    /// Reads a name and a line feed, the script, `>` and a line feed, and what is printed. After a further `>` comes
    /// what is printed without the text.
    pub fn read(text: &'a str) -> Option<Self> {
        let (name, rest) = text.split_once('\n')?;
        let (script, printed) = rest.split_once(">\n")?;
        Some(match printed.split_once(">\n") {
            Some((printed, without)) => Case {
                name,
                script,
                printed,
                without_text: Some(without),
            },
            None => Case {
                name,
                script,
                printed,
                without_text: None,
            },
        })
    }

    /// What came of a script that printed this with this status.
    pub fn outcome(&self, status: u8, output: &[u8]) -> Outcome {
        match status {
            0 if output == self.printed.as_bytes() => Outcome::Whole,
            0 => match self.without_text {
                Some(printed) if output == printed.as_bytes() => Outcome::Refused,
                _ => Outcome::Otherwise,
            },
            4 if self.begins_with(output) => Outcome::Refused,
            _ => Outcome::Otherwise,
        }
    }

    /// Whether these are the first lines of what it prints, each whole.
    fn begins_with(&self, output: &[u8]) -> bool {
        let is_whole = output.last().copied().unwrap_or(b'\n') == b'\n';
        is_whole && self.printed.as_bytes().starts_with(output)
    }
}
