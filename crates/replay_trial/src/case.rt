//! Scripts with what they should do, as they lie in files.

use replay::replay;
use std::alloc::Global;
use std::test::Fail;

/// A script, what it should print, and its exit status.
#[derive(Clone, Copy)]
pub struct Case<'a> {
    pub name: &'a str,
    script: &'a str,
    printed: &'a str,
    status: u8,
}

impl<'a> Case<'a> {
    /// Reads `STATUS NAME` and a line feed, the script, `>` and a line feed, and what is printed.
    pub fn read(text: &'a str) -> Option<Self> {
        let (head, rest) = text.split_once('\n')?;
        let (status, name) = head.split_once(' ')?;
        let (script, printed) = rest.split_once(">\n")?;
        Some(Case {
            name,
            script,
            printed,
            status: status.parse::<u8>().ok()?,
        })
    }

    /// Whether the script prints what it should, and ends with its status.
    pub fn holds(&self, alloc: Global) -> bool {
        plays(alloc, self.script.as_bytes(), self.printed, self.status)
    }
}

/// Whether a script prints this, with this status.
pub fn plays(alloc: Global, script: &[u8], printed: &str, status: u8) -> bool {
    let mut output = Vec::new(alloc);
    replay(alloc, script, &mut output) == status && output.as_slice() == printed.as_bytes()
}

/// Lines that no script may have at one place, and what a script with such a line there prints.
#[derive(Clone, Copy)]
pub struct Place {
    before: &'static str,
    behind: &'static str,
    printed: &'static str,
}

/// After lines that are well.
pub const LATER: Place = Place {
    before: "screen 2 1 T\nopen 1 full\nturn 1\n",
    behind: "\nturn 1\n",
    printed: "1: -\nline 4\n",
};

/// At the beginning.
pub const FIRST: Place = Place {
    before: "",
    behind: "\nraise\n",
    printed: "line 1\n",
};

impl Place {
    /// Whether a script is refused for a line there. In its file the line stands between two bars.
    pub fn refuses(&self, alloc: Global, row: &str) -> Result<bool, Fail> {
        let Some((_, rest)) = row.split_once('|') else {
            return Ok(false);
        };
        let Some((line, _)) = rest.split_once('|') else {
            return Ok(false);
        };
        let script = format!(in alloc; "{}{line}{}", self.before, self.behind)?;
        Ok(plays(alloc, script.as_bytes(), self.printed, 2))
    }
}
