//! The table of files, which are read once.

ghost use Rattle.std.specs.Prelude.{◌≡◌};

use crate::media_type::MediaType;
use crate::walk::{Found, Step};
use bytes::Bytes;
use std::alloc::{AllocError, Global};
use std::marker::Model;

/// A table has at most this many files.
pub const MOST_FILES: usize = 2_000;

/// Its files have at most this many bytes together: 16 MiB.
pub const MOST_BYTES: usize = 16_777_216;

/// A file that is served under one path.
#[derive(Drop)]
pub struct WebFile {
    /// Its path in a request, from the slash on.
    pub path: String,
    /// The media type of the file, by which its Content-Type is chosen.
    pub media_type: MediaType,
    /// The bytes of the file.
    pub body: Bytes,
}

/// Why a file doesn't go into a table.
#[derive(Clone, Copy, Debug, PartialEq, Eq, thiserror::Error)]
pub enum TableFault {
    /// Files of its ending aren't served.
    #[error("files of this ending aren't served")]
    OtherEnding,
    /// The table has `MOST_FILES` files already.
    #[error("there are more than 2,000 files")]
    TooManyFiles,
    /// The files would have more than `MOST_BYTES` bytes.
    #[error("the files have more than 16 MiB")]
    TooManyBytes,
    /// Memory is refused.
    #[error("memory is refused")]
    Memory,
}

/// All files that are served. A path that isn't in the table is answered as missing: no file is ever opened for a
/// request.
#[derive(Drop)]
pub struct FileTable {
    files: Vec<WebFile>,
    // How many bytes all files have.
    size: usize,
}

impl Model for FileTable {
    ghost use Rattle.std.specs.Prelude.{◌≡◌, ◌≤◌, List, length};
    ghost use Rattle.web_site.specs.declared.table.WebFile.{WebFile};
    ghost use Rattle.web_site.specs.Tables.{total};

    ghost Value = { List WebFile };

    ghost view = { λ t. t.files.items };

    ghost invariant = { λ t. (t.size ≡ total t.files.items) × (length t.files.items ≤ 2000)
        × (t.size ≤ 16777216) };
}

impl FileTable {
    ghost use Rattle.std.specs.Prelude.{◌≡◌, ◌+◌, ◌<◌, ◌≤◌, ◌⊎◌, [], ◌∷◌, ◌++◌, length, None, Some, IfErr, OnOk, OnErr, option_copied, string_bytes};
    ghost use Rattle.web_site.specs.declared.table.TableFault.TheVariants.{Memory};
    ghost use Rattle.web_site.specs.MediaTypes.{media_type_by_name};
    ghost use Rattle.web_site.specs.Tables.{file_at, total, refusal, IsAdded, met};

    /// A table without a file.
    pub fn new(alloc: Global) -> FileTable
        ensures { result ≡ [] }
    {
        FileTable {
            files: Vec::new(alloc),
            size: 0,
        }
    }

    /// The files of the table, in the order in which they were added.
    pub fn files(&self) -> &[WebFile]
        ensures files { result.now ≡ self.now }
        ensures few { length self.now ≤ MOST_FILES }
        ensures small { total self.now ≤ MOST_BYTES }
    {
        self.files.as_slice()
    }

    /// The file of exactly this path, with no decoding.
    pub fn find(&self, path: &str) -> Option<&WebFile>
        ensures { option_copied result ≡ file_at self.now path.now }
    {
        self.files.iter().find(|file| file.path.as_str() == path)
    }

    /// Why a file of this name and size doesn't go in, or `None` where it does.
    fn refusal(&self, media_type: Option<MediaType>, size: usize) -> Option<TableFault>
        ensures { result ≡ refusal self.now media_type size }
    {
        if media_type.is_none() {
            Some(TableFault::OtherEnding)
        } else if self.files.len() >= MOST_FILES {
            Some(TableFault::TooManyFiles)
        } else if size > MOST_BYTES || self.size + size > MOST_BYTES {
            Some(TableFault::TooManyBytes)
        } else {
            None
        }
    }

    /// Adds a file. Where it refuses the file, the table stays as it is.
    pub fn add(&mut self, path: String, body: Bytes) -> Result<(), TableFault>
        ensures added { OnOk result (IsAdded self.old self.new path body) }
        ensures kept { OnErr result (self.new ≡ self.old) }
        ensures why { IfErr result (λ fault.
            (refusal self.old (media_type_by_name (string_bytes path)) (length body) ≡ Some fault)
            ⊎ (fault ≡ Memory)) }
        ensures refused { OnOk result
            (refusal self.old (media_type_by_name (string_bytes path)) (length body) ≡ None) }
    {
        let Some(media_type) = MediaType::of(path.as_str()) else {
            return Err(TableFault::OtherEnding);
        };
        if let Some(fault) = self.refusal(Some(media_type), body.len()) {
            return Err(fault);
        }
        match self.put(WebFile {
            path,
            media_type,
            body,
        }) {
            Ok(()) => Ok(()),
            Err(_) => Err(TableFault::Memory),
        }
    }

    fn put(&mut self, file: WebFile) -> Result<(), AllocError>
        requires few { length self.old < MOST_FILES }
        requires small { total self.old + length file.body ≤ MOST_BYTES }
        ensures ok { OnOk result (self.new ≡ self.old ++ file ∷ []) }
        ensures err { OnErr result (self.new ≡ self.old) }
    {
        let size = file.body.len();
        self.files.push(file)?;
        self.size += size;
        Ok(())
    }

    /// What is done with what a folder has under this name: folders are entered, and regular files of known endings are
    /// read, unless there are too many or they are too large. Everything else, such as a symbolic link, is passed over.
    pub fn meet(&self, name: &str, found: Found) -> Result<Step, TableFault>
        ensures { result ≡ met self.now name.now found }
    {
        let size = match found {
            Found::Folder => return Ok(Step::Enter),
            Found::Other => return Ok(Step::Pass),
            Found::File(size) => size,
        };
        match self.refusal(MediaType::of(name), size) {
            None => Ok(Step::Read),
            Some(TableFault::OtherEnding) => Ok(Step::Pass),
            Some(fault) => Err(fault),
        }
    }
}
