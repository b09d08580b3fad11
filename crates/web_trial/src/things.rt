//! The things on a disk, as words of a line tell them.

use web_site::Found;

/// A thing on a disk: its path, what it is, and its bytes in hex.
#[derive(Clone, Copy)]
pub(crate) struct Thing<'a> {
    pub(crate) path: &'a str,
    pub(crate) what: &'a str,
    pub(crate) bytes: &'a str,
}

impl<'a> Thing<'a> {
    /// Reads `PATH=WHAT=BYTES`, or less of it.
    pub(crate) fn read(word: &'a str) -> Thing<'a> {
        let (path, rest) = word.split_once('=').unwrap_or((word, "folder"));
        let (what, bytes) = rest.split_once('=').unwrap_or((rest, ""));
        Thing { path, what, bytes }
    }

    /// What it is: a folder, a file of so many bytes, or neither.
    pub(crate) fn found(&self) -> Found {
        match self.what {
            "folder" => Found::Folder,
            size => match size.parse::<usize>() {
                Ok(size) => Found::File(size),
                Err(_) => Found::Other,
            },
        }
    }

    /// Its name, if it is in this folder. Where its own folder is `*` it is in each.
    pub(crate) fn name_in(&self, folder: &str) -> Option<&'a str> {
        let (above, name) = self.path.rsplit_once('/')?;
        if above == folder || above == "*" {
            Some(name)
        } else {
            None
        }
    }
}
