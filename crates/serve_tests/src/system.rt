//! What a runtime in a room hands on as it is: memory, sockets that are files, and the file of a password; and its
//! random bytes. It has no folders.

use crate::room::Ear;
use std::alloc::{Allocator, Global};
use std::fs::{File, Metadata, OpenOptions};
use std::io::ErrorKind;
use std::os::fd::BorrowedFd;
use std::os::unix::net::SocketAddr;
use std::random::RandomSource;
use std::rt::Files;
use std::{fs, io};

impl<R: Drop> Alloc for Ear<R> {
    type A = Global;

    fn alloc(&self) -> Global {
        self.alloc
    }
}

/// They count on from 0, so that each challenge is the same.
impl<R: Drop> RandomSource for Ear<R> {
    fn fill_bytes(&self, buf: &mut [u8]) -> io::Result<()> {
        for (i, byte) in buf.iter_mut().enumerate() {
            *byte = (i % 256) as u8;
        }
        Ok(())
    }
}

/// No scene has folders.
fn none<T>() -> io::Result<T> {
    Err(io::Error::from(ErrorKind::Unsupported))
}

/// Files that are sockets, and one that is read.
pub(crate) trait SocketFiles {
    /// Opens this file.
    fn open(&self, how: &OpenOptions, path: &str) -> io::Result<File>;

    /// Gives this address to a socket.
    fn bind(&self, socket: BorrowedFd<'_>, address: &SocketAddr) -> io::Result<()>;

    /// What stands at this path.
    fn find(&self, path: &str) -> io::Result<Metadata>;

    /// What a path leads to.
    fn look(&self, path: &str) -> io::Result<Metadata>;

    /// Removes it.
    fn remove(&self, path: &str) -> io::Result<()>;

    /// Puts a file of these bytes there.
    fn put(&self, path: &str, bytes: &[u8]) -> io::Result<()>;
}

impl SocketFiles for HostRuntime {
    fn open(&self, how: &OpenOptions, path: &str) -> io::Result<File> {
        self.open_file(how, path)
    }

    fn bind(&self, socket: BorrowedFd<'_>, address: &SocketAddr) -> io::Result<()> {
        self.bind_unix(socket, address)
    }

    fn find(&self, path: &str) -> io::Result<Metadata> {
        self.symlink_metadata(path)
    }

    fn look(&self, path: &str) -> io::Result<Metadata> {
        self.metadata(path)
    }

    fn remove(&self, path: &str) -> io::Result<()> {
        self.remove_file(path)
    }

    fn put(&self, path: &str, bytes: &[u8]) -> io::Result<()> {
        fs::write(self, path, bytes)
    }
}

impl<R: SocketFiles + Drop> Files for Ear<R> {
    type File = File;

    type Dir = File;

    fn open_file(&self, how: &OpenOptions, path: &str) -> io::Result<File> {
        self.rt.open(how, path)
    }

    fn open_dir(&self, _path: &str) -> io::Result<File> {
        none()
    }

    fn metadata(&self, path: &str) -> io::Result<Metadata> {
        self.rt.look(path)
    }

    fn symlink_metadata(&self, path: &str) -> io::Result<Metadata> {
        self.rt.find(path)
    }

    fn copy(&self, _from: &str, _to: &str) -> io::Result<u64> {
        none()
    }

    fn rename(&self, _from: &str, _to: &str) -> io::Result<()> {
        none()
    }

    fn remove_file(&self, path: &str) -> io::Result<()> {
        self.rt.remove(path)
    }

    fn create_dir(&self, _path: &str) -> io::Result<()> {
        none()
    }

    fn remove_dir(&self, _path: &str) -> io::Result<()> {
        none()
    }

    fn remove_dir_all<B: Allocator>(&self, _alloc: B, _path: &str) -> io::Result<()> {
        none()
    }

    fn bind_unix(&self, socket: BorrowedFd<'_>, address: &SocketAddr) -> io::Result<()> {
        self.rt.bind(socket, address)
    }
}
