//! What a folder has, and what is done with it.

/// What a folder has under a name.
#[derive(Clone, Copy, Debug, PartialEq, Eq)]
pub enum Found {
    /// A regular file of this many bytes.
    File(usize),
    /// A folder, which is walked in its turn.
    Folder,
    /// Something else, such as a symbolic link or a device.
    Other,
}

/// What is done with it.
#[derive(Clone, Copy, Debug, PartialEq, Eq)]
pub enum Step {
    /// It is read, and added to the table.
    Read,
    /// It is entered.
    Enter,
    /// It is passed over.
    Pass,
}
