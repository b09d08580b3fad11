//! The site of a web port, as a line tells it.

use crate::tables::add;
use crate::words::parted;
use std::alloc::{AllocError, Global};
use std::sync::Arc;
use std::test::Fail;
use web_site::{Admission, FileTable, Site};

/// The site that is asked before a line tells of another: its role and its files.
pub(crate) const FIRST: &str =
    "full /vnc.html: <!DOCTYPE html>a page | /app/ui.js: let a; | /app/a b.css: p { }";

/// The hosts and the origins under which each site is known.
const HOSTS: [&str; 2] = ["127.0.0.1:6080", "lecture.example"];

const ORIGINS: [&str; 2] = ["http://127.0.0.1:6080", "https://lecture.example"];

fn texts_of(alloc: Global, of: &[&str]) -> Result<Vec<String>, AllocError> {
    let mut texts = Vec::new(alloc);
    for text in of {
        texts.push(String::from_str(alloc, text)?)?;
    }
    Ok(texts)
}

/// Adds a file, told as its path, a colon and its text.
fn add_file(alloc: Global, table: &mut FileTable, file: &str) -> Result<(), Fail> {
    let (path, text) = file.split_once(": ").unwrap_or((file, ""));
    let mut body = Vec::new(alloc);
    body.extend_from_slice(text.as_bytes())?;
    match add(alloc, table, path, body)? {
        None => Ok(()),
        Some(_) => Err(Fail::new("no such file")),
    }
}

fn files_of(alloc: Global, files: &str) -> Result<Arc<FileTable, Global>, Fail> {
    let mut table = FileTable::new(alloc);
    for file in files.split(" | ") {
        if !file.is_empty() {
            add_file(alloc, &mut table, file)?;
        }
    }
    Ok(Arc::new(alloc, table)?)
}

/// The site of a role, `full` or `view`, and of these files.
pub(crate) fn site_of(alloc: Global, line: &str) -> Result<Arc<Site, Global>, Fail> {
    let (role, files) = parted(line);
    let files = files_of(alloc, files)?;
    let admission = Admission {
        hosts: texts_of(alloc, &HOSTS)?,
        origins: texts_of(alloc, &ORIGINS)?,
    };
    let site = Site::new(alloc, files, admission, role == "view")?;
    Ok(Arc::new(alloc, site)?)
}
