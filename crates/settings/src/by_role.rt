//! What the settings say for the viewers of a role, and for all of them.

ghost use Rattle.std.specs.Prelude.{◌≡◌, ◌≤◌, option_map, true};
ghost use Rattle.raster.specs.Size.{IsScreenSize};
ghost use Rattle.settings.specs.ByRole.{bind_for, password_file_for, places_for, port_for, rect_form_for, web_port_for};
ghost use Rattle.settings.specs.Rooms.{FitsInto, IsRoomFor};

use crate::room::Room;
use crate::values::Settings;
use joined_runs::RectForm;
use roles::Role;

/// The port of the browsers of a role, if there is one: none with full control where all only look on.
pub fn web_port_of(settings: &Settings, role: Role) -> Option<u16>
    ensures { result ≡ web_port_for role settings.now }
{
    match role {
        Role::Full if settings.view_only => None,
        Role::Full => settings.web_full,
        Role::View => settings.web_view,
    }
}

/// The port of the viewers of a role.
pub fn port_of(settings: &Settings, role: Role) -> u16
    ensures { result ≡ port_for role settings.now }
{
    match role {
        Role::Full => settings.full,
        Role::View => settings.view,
    }
}

/// The text of the address to listen on for the viewers of a role.
pub fn bind_of(settings: &Settings, role: Role) -> &str
    ensures { result.now ≡ bind_for role settings.now }
{
    match role {
        Role::Full => match &settings.full_bind {
            Some(text) => text.as_str(),
            None => settings.bind.as_str(),
        },
        Role::View => settings.bind.as_str(),
    }
}

/// The path of the file with the password that the viewers of a role are asked for, if they are asked for one.
pub fn password_file_of(settings: &Settings, role: Role) -> Option<&str>
    ensures { option_map (λ path. path.now) result ≡ password_file_for role settings.now }
{
    let path = match role {
        Role::Full => &settings.full_password,
        Role::View => &settings.view_password,
    };
    match path {
        Some(path) => Some(path.as_str()),
        None => None,
    }
}

/// How many viewers of a role are to be served.
pub fn places_of(settings: &Settings, role: Role) -> u64
    ensures { result ≡ places_for role settings.now }
{
    match role {
        Role::Full if settings.view_only => 0,
        Role::Full => settings.full_places,
        Role::View => settings.view_places,
    }
}

/// The form in which all viewers are answered, in RRE and in Hextile.
pub fn rect_form_of(settings: &Settings) -> RectForm
    ensures { result ≡ rect_form_for settings.now }
{
    if settings.plain_runs {
        RectForm::OfRows
    } else {
        RectForm::Joined
    }
}

/// Whether a host's screen of this size fits into the room, if there is one.
pub fn fits(room: &Option<Room>, width: u64, height: u64) -> bool
    ensures { result ≡ true → FitsInto room.now width height }
{
    match room {
        Some(room) => width <= room.width && height <= room.height,
        None => true,
    }
}

/// The room of a run whose first host has a screen of this size, which fits: the one that the settings say, or else a
/// room of just this size.
pub fn room_of(settings: &Settings, width: u64, height: u64) -> Room
    requires size { IsScreenSize width height }
    requires fits { FitsInto settings.now.room width height }
    ensures room { IsRoomFor settings.now width height result.width result.height }
    ensures within { (width ≤ result.width) × (height ≤ result.height) }
{
    match settings.room {
        Some(room) => room,
        None => Room { width, height },
    }
}
