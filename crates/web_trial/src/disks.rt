//! A disk that a line tells of, and the system's disk.

use crate::tables::print_files;
use crate::things::Thing;
use crate::words::parted;
use std::alloc::Global;
use std::io::ErrorKind;
use std::os::unix;
use std::test::Fail;
use std::{fs, io};
use web_root::{Disk, SystemDisk, read_all};
use web_site::Found;

/// A disk of the things that a line tells.
#[derive(Drop)]
struct Shelf<'a> {
    things: &'a str,
}

impl<'a> Shelf<'a> {
    fn find(&self, path: &str) -> io::Result<Thing<'a>> {
        let (folder, name) = path.rsplit_once('/').unwrap_or(("", path));
        for word in self.things.split(' ') {
            let thing = Thing::read(word);
            if thing.name_in(folder) == Some(name) {
                return Ok(thing);
            }
        }
        Err(io::Error::from(ErrorKind::NotFound))
    }
}

impl Disk for Shelf<'_> {
    ghost use Rattle.std.specs.Prelude.{⊤};

    ghost has = { λ _ _ _. ⊤ };

    ghost gave = { λ _ _ _. ⊤ };

    fn names(&self, alloc: Global, folder: &str) -> io::Result<Vec<String>> {
        let mut names = Vec::new(alloc);
        for word in self.things.split(' ') {
            if let Some(name) = Thing::read(word).name_in(folder) {
                names.push(String::from_str(alloc, name)?)?;
            }
        }
        Ok(names)
    }

    fn look(&self, path: &str) -> io::Result<Found> {
        Ok(self.find(path)?.found())
    }

    fn read(&self, alloc: Global, path: &str, _most: u64) -> io::Result<Vec<u8>> {
        let thing = self.find(path)?;
        match hex::decode(alloc, thing.bytes) {
            Ok(bytes) => Ok(bytes),
            Err(_) => Err(io::Error::from(ErrorKind::InvalidData)),
        }
    }
}

/// Prints the files that are read of a disk, or why none are.
fn print_disk<D: Disk>(rt: &HostRuntime, disk: &D) -> Result<(), Fail> {
    match read_all(rt.alloc(), disk) {
        Ok(table) => print_files(rt, &table)?,
        Err(fault) => print!(rt; " {fault:?}")?,
    }
    println!(rt)?;
    Ok(())
}

/// Plays a line with a name and the things on a disk. It prints what is read of it.
pub(crate) fn read_disk(rt: &HostRuntime, line: &str) -> Result<(), Fail> {
    let (name, things) = parted(line);
    print!(rt; "{name}:")?;
    print_disk(rt, &Shelf { things })
}

/// Plays a line with a name and a folder of the system. It prints what is read of it.
pub(crate) fn read_system(rt: &HostRuntime, line: &str) -> Result<(), Fail> {
    let (name, folder) = parted(line);
    print!(rt; "{name}:")?;
    print_disk(rt, &SystemDisk::new(*rt, folder))
}

/// Plays a line with a thing that is laid on the system's disk: a folder, a file, or a link to the path in its place.
pub(crate) fn lay(rt: &HostRuntime, line: &str) -> Result<(), Fail> {
    let thing = Thing::read(line);
    match thing.what {
        "folder" => fs::create_dir_all(rt, thing.path)?,
        "link" => unix::fs::symlink(rt, thing.bytes, thing.path)?,
        _ => fs::write(rt, thing.path, thing.bytes)?,
    }
    Ok(())
}
