//! The passwords that files have: that of the hosts, and those of the ports.

ghost use Rattle.std.specs.Prelude.{◌≡◌, IfOk, is_some};
ghost use Rattle.serve.specs.Locks.{IsKeyFor};

use crate::trouble::{Stage, Trouble};
use connections::Key;
use fault::Fault;
use roles::Role;
use settings::{Settings, password_file_of};
use std::alloc::Global;
use std::io::Read;
use std::rt::Files;
use std::{fs, io};
use vnc_auth::Password;

/// The most bytes that are read of the file. What `vncpasswd` writes has at most 16, and of a line eight count.
const MOST_READ: u64 = 64;

/// The password in the file at this path, if it has one.
fn password_at<R: Files>(rt: &R, alloc: Global, path: &str) -> io::Result<Option<Password>> {
    let file = fs::open(rt, path)?;
    let mut bytes = Vec::new(alloc);
    let _ = file.take(MOST_READ).read_to_end(&mut bytes)?;
    Ok(Password::in_file(bytes.as_slice()))
}

/// The password of the hosts, where a file for one is named. The file is read here, once. It fails where the file can't
/// be read, or has no password. Nothing of what it has is told to anybody.
pub(crate) fn password_of<R: Files>(
    rt: &R,
    alloc: Global,
    settings: &Settings,
) -> Result<Option<Password>, Trouble>
    ensures { IfOk result (λ password. is_some password ≡ is_some settings.now.host_password) }
{
    let Some(path) = &settings.host_password else {
        return Ok(None);
    };
    match password_at(rt, alloc, path.as_str()) {
        Ok(Some(password)) => Ok(Some(password)),
        Ok(None) => Err(Trouble::new(Stage::ReadPassword, Fault::LinkFailed)),
        Err(error) => Err(Trouble::of(Stage::ReadPassword, error)),
    }
}

/// The key of the port of a role: the port is locked where a file for the role's password is named. The file is read
/// here, once. It fails where the file can't be read, or has no password.
pub(crate) fn key_of<R: Files>(
    rt: &R,
    alloc: Global,
    settings: &Settings,
    role: Role,
) -> Result<Key, Trouble>
    ensures { IfOk result (λ key. IsKeyFor role settings.now key) }
{
    let Some(path) = password_file_of(settings, role) else {
        return Ok(Key::Open);
    };
    match password_at(rt, alloc, path) {
        Ok(Some(password)) => Ok(Key::Locked(password)),
        Ok(None) => Err(Trouble::new(Stage::ReadKey(role), Fault::LinkFailed)),
        Err(error) => Err(Trouble::of(Stage::ReadKey(role), error)),
    }
}
