//! What to try where a file or a folder can't be read or made.

use crate::advice::{Advice, shown, text_of};
use playback::BadPlayback;
use roles::Role;
use settings::password_file_of;
use std::fmt;
use std::fmt::Formatter;
use web_root::RootFault;

/// The option for the file with the password of a role's viewers.
fn password_option(role: Role) -> &'static str {
    match role {
        Role::Full => "--full-password-file",
        Role::View => "--view-password-file",
    }
}

impl Advice<'_> {
    /// The file with the hosts' password can't be read.
    pub(crate) fn bad_password<W: fmt::Write>(&self, f: &mut Formatter<W>) -> fmt::Result {
        write!(
            f,
            "--host-password-file {}{}; it has to have the hosts' password in its first line, or as vncpasswd writes it",
            shown(&self.settings.host_password),
            self.said()
        )
    }

    /// The file with the password of a role's viewers can't be read.
    pub(crate) fn bad_key<W: fmt::Write>(&self, f: &mut Formatter<W>, role: Role) -> fmt::Result {
        write!(
            f,
            "{} {}{}; it has to have the viewers' password in its first line, or as vncpasswd writes it",
            password_option(role),
            password_file_of(self.settings, role).unwrap_or(""),
            self.said()
        )
    }

    /// The files for browsers can't be read.
    pub(crate) fn bad_root<W: fmt::Write>(
        &self,
        f: &mut Formatter<W>,
        why: RootFault,
    ) -> fmt::Result {
        write!(
            f,
            "--web-root {}: {why}; name noVNC's folder, such as /usr/share/novnc",
            shown(&self.settings.web_root)
        )
    }

    /// The files of the recording can't be made.
    pub(crate) fn no_recording<W: fmt::Write>(&self, f: &mut Formatter<W>) -> fmt::Result {
        write!(
            f,
            "can't record into a new file {}{}; no file is written over, and its index ends in .fbi",
            shown(&self.settings.recording),
            self.said()
        )
    }

    /// The recording that is the host can't be opened.
    pub(crate) fn unopened_recording<W: fmt::Write>(&self, f: &mut Formatter<W>) -> fmt::Result {
        write!(
            f,
            "can't open the recording of {}{}; is it there, and may it be read?",
            self.settings.host,
            self.said()
        )
    }

    /// The recording that is the host of this number can't be played on.
    pub(crate) fn bad_recording<W: fmt::Write>(
        &self,
        f: &mut Formatter<W>,
        number: usize,
        bad: BadPlayback,
    ) -> fmt::Result {
        write!(
            f,
            "can't play the recording of {}: {bad}",
            text_of(self.settings, number)
        )
    }
}
