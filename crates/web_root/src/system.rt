//! The system's disk.

use crate::disk::Disk;
use crate::walk::MOST_NAMES;
use std::alloc::Global;
use std::fs::Metadata;
use std::io::Read;
use std::rt::Files;
use std::{fs, io};
use web_site::Found;

/// The system's disk below a folder. No clause says what it has.
#[derive(Drop)]
pub struct SystemDisk<'r, R: Files + Alloc<A = Global> + Clone + Drop> {
    rt: R,
    root: &'r str,
}

impl<'r, R: Files + Alloc<A = Global> + Clone + Drop> SystemDisk<'r, R> {
    /// The disk below the folder of this path.
    pub fn new(rt: R, root: &'r str) -> SystemDisk<'r, R> {
        SystemDisk { rt, root }
    }

    /// The system's path for a path below the root.
    fn place(&self, path: &str) -> io::Result<String> {
        let mut place = String::from_str(self.rt.alloc(), self.root)?;
        place.push_str(path)?;
        Ok(place)
    }
}

fn found(metadata: &Metadata) -> Found {
    if metadata.is_file() {
        Found::File(usize::try_from(metadata.len()).unwrap_or(usize::MAX))
    } else if metadata.is_dir() {
        Found::Folder
    } else {
        Found::Other
    }
}

impl<'r, R: Files + Alloc<A = Global> + Clone + Drop> Disk for SystemDisk<'r, R> {
    ghost use Rattle.std.specs.Prelude.{⊤};

    ghost has = { λ _ _ _. ⊤ };

    ghost gave = { λ _ _ _. ⊤ };

    fn names(&self, alloc: Global, folder: &str) -> io::Result<Vec<String>> {
        let place = self.place(folder)?;
        let mut names = Vec::new(alloc);
        for entry in fs::read_dir(&self.rt, place.as_str())? {
            let entry = entry?;
            if names.len() > MOST_NAMES {
                break;
            }
            names.push(String::from_str(alloc, entry.file_name())?)?;
        }
        Ok(names)
    }

    fn look(&self, path: &str) -> io::Result<Found> {
        let place = self.place(path)?;
        let metadata = fs::symlink_metadata(&self.rt, place.as_str())?;
        Ok(found(&metadata))
    }

    fn read(&self, alloc: Global, path: &str, most: u64) -> io::Result<Vec<u8>> {
        let place = self.place(path)?;
        let file = fs::open(&self.rt, place.as_str())?;
        let mut bytes = Vec::new(alloc);
        let _ = file.take(most).read_to_end(&mut bytes)?;
        Ok(bytes)
    }
}
