//! A table of files, act by act.

use crate::things::Thing;
use crate::words::{parted, print_bytes};
use bytes::Bytes;
use std::alloc::Global;
use std::test::Fail;
use web_site::{FileTable, TableFault, WebFile};

/// Prints a file: its path, and its bytes.
fn print_file(rt: &HostRuntime, file: &WebFile) -> Result<(), Fail> {
    print!(rt; " {}=", file.path.as_str())?;
    print_bytes(rt, file.body.as_slice())
}

/// Prints the files of a table, in their order.
pub(crate) fn print_files(rt: &HostRuntime, table: &FileTable) -> Result<(), Fail> {
    for file in table.files() {
        print_file(rt, file)?;
    }
    Ok(())
}

/// Adds a file to a table, and answers why it doesn't go in.
pub(crate) fn add(
    alloc: Global,
    table: &mut FileTable,
    path: &str,
    body: Vec<u8>,
) -> Result<Option<TableFault>, Fail> {
    let body = Bytes::from_vec(body)?;
    let path = String::from_str(alloc, path)?;
    Ok(table.add(path, body).err())
}

/// Adds a file as often as is told, up to a fault.
fn add_often(rt: &HostRuntime, table: &mut FileTable, thing: Thing<'_>) -> Result<(), Fail> {
    for _ in 0..thing.what.parse::<u64>()? {
        let body = hex::decode(rt.alloc(), thing.bytes)?;
        if let Some(fault) = add(rt.alloc(), table, thing.path, body)? {
            print!(rt; " {fault:?}")?;
            return Ok(());
        }
    }
    print!(rt; " added")?;
    Ok(())
}

/// Prints the media type and the bytes of a file that was looked for.
fn print_found(rt: &HostRuntime, file: Option<&WebFile>) -> Result<(), Fail> {
    match file {
        Some(file) => {
            print!(rt; " {:?}=", file.media_type)?;
            print_bytes(rt, file.body.as_slice())
        }
        None => Ok(print!(rt; " none")?),
    }
}

/// Plays one act before a table.
fn play_act(rt: &HostRuntime, table: &mut FileTable, act: &str) -> Result<(), Fail> {
    let (verb, object) = act.split_once(':').unwrap_or((act, ""));
    let thing = Thing::read(object);
    match verb {
        "add" => add_often(rt, table, thing),
        "meet" => Ok(print!(rt; " {:?}", table.meet(thing.path, thing.found()))?),
        "find" => print_found(rt, table.find(thing.path)),
        _ => Ok(print!(rt; " {}", table.files().len())?),
    }
}

/// Plays the acts before a table, and prints what comes of each.
fn play_acts(rt: &HostRuntime, table: &mut FileTable, acts: &str) -> Result<(), Fail> {
    for act in acts.split(' ') {
        play_act(rt, table, act)?;
    }
    println!(rt)?;
    Ok(())
}

/// Plays a line with a name and what is done with a table of files.
pub(crate) fn play_table(rt: &HostRuntime, line: &str) -> Result<(), Fail> {
    let (name, acts) = parted(line);
    print!(rt; "{name}:")?;
    play_acts(rt, &mut FileTable::new(rt.alloc()), acts)
}
