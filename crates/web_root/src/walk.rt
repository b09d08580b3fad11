//! A walk over a folder and the folders in it.

ghost use Rattle.std.specs.Prelude.{◌≡◌, All, IfOk, OnOk, ℕ};
ghost use Rattle.std.specs.String.{string_bytes};
ghost use Rattle.web_site.specs.declared.walk.Found.TheVariants.{File};
ghost use Rattle.web_root.specs.Roots.{IsFileOf};

use crate::disk::Disk;
use crate::fault::RootFault;
use bytes::Bytes;
use std::alloc::{AllocError, Global};
use web_site::{FileTable, MOST_BYTES, Step};

/// At most this many folders are entered.
pub const MOST_FOLDERS: usize = 2_000;

/// A folder has at most this many names.
pub const MOST_NAMES: usize = 20_000;

/// A walk: the paths of the folders that are still to be entered, how many paths were ever added to them, and the files
/// that were read.
#[derive(Drop)]
struct Walk {
    folders: Vec<String>,
    count: usize,
    table: FileTable,
}

/// The path of what a folder has under a name.
fn path_in(alloc: Global, folder: &str, name: &str) -> Result<String, AllocError> {
    let mut path = String::from_str(alloc, folder)?;
    path.push('/')?;
    path.push_str(name)?;
    Ok(path)
}

impl Walk {
    /// Adds one more folder that is to be entered.
    fn push(&mut self, path: String) -> Result<(), RootFault>
        ensures { self.new.table ≡ self.old.table }
    {
        if self.count >= MOST_FOLDERS {
            return Err(RootFault::TooManyFolders);
        }
        self.count += 1;
        Ok(self.folders.push(path)?)
    }

    /// Reads one more file, which is a regular one.
    fn read<D: Disk>(&mut self, alloc: Global, disk: &D, path: String) -> Result<(), RootFault>
        requires regular { (size : ℕ) × D.has disk.now (string_bytes path) (File size) }
        requires files { All (IsFileOf (D.has disk.now) (D.gave disk.now)) self.old.table }
        ensures files { OnOk result
            (All (IsFileOf (D.has disk.now) (D.gave disk.now)) self.new.table) }
    {
        let body = disk.read(alloc, path.as_str(), MOST_BYTES as u64 + 1)?;
        Ok(self.table.add(path, Bytes::from_vec(body)?)?)
    }

    /// Looks at what a folder has under a name.
    fn meet<D: Disk>(
        &mut self,
        alloc: Global,
        disk: &D,
        folder: &str,
        name: &str,
    ) -> Result<(), RootFault>
        requires files { All (IsFileOf (D.has disk.now) (D.gave disk.now)) self.old.table }
        ensures files { OnOk result
            (All (IsFileOf (D.has disk.now) (D.gave disk.now)) self.new.table) }
    {
        let path = path_in(alloc, folder, name)?;
        let found = disk.look(path.as_str())?;
        match self.table.meet(path.as_str(), found)? {
            Step::Pass => Ok(()),
            Step::Enter => self.push(path),
            Step::Read => self.read(alloc, disk, path),
        }
    }

    /// Looks at all that a folder has.
    fn enter<D: Disk>(&mut self, alloc: Global, disk: &D, folder: &str) -> Result<(), RootFault>
        requires files { All (IsFileOf (D.has disk.now) (D.gave disk.now)) self.old.table }
        ensures files { OnOk result
            (All (IsFileOf (D.has disk.now) (D.gave disk.now)) self.new.table) }
    {
        let names = disk.names(alloc, folder)?;
        if names.len() > MOST_NAMES {
            return Err(RootFault::TooManyNames);
        }
        for name in names.iter() {
            self.meet(alloc, disk, folder, name.as_str())?;
        }
        Ok(())
    }

    /// Enters one more folder. It answers false where none is left.
    fn go_on<D: Disk>(&mut self, alloc: Global, disk: &D) -> Result<bool, RootFault>
        requires files { All (IsFileOf (D.has disk.now) (D.gave disk.now)) self.old.table }
        ensures files { OnOk result
            (All (IsFileOf (D.has disk.now) (D.gave disk.now)) self.new.table) }
    {
        let Some(folder) = self.folders.pop() else {
            return Ok(false);
        };
        self.enter(alloc, disk, folder.as_str())?;
        Ok(true)
    }
}

/// Reads all files below a disk's root into a table: regular files of known endings, and no symbolic links. It fails at
/// the first fault.
pub fn read_all<D: Disk>(alloc: Global, disk: &D) -> Result<FileTable, RootFault>
    ensures { IfOk result (λ table. All (IsFileOf (D.has disk.now) (D.gave disk.now)) table) }
{
    let mut walk = Walk {
        folders: Vec::new(alloc),
        count: 0,
        table: FileTable::new(alloc),
    };
    walk.push(String::new(alloc))?;
    for _ in 0..=MOST_FOLDERS {
        if !walk.go_on(alloc, disk)? {
            return Ok(walk.table);
        }
    }
    Err(RootFault::TooManyFolders)
}
