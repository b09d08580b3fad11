//! What passes, and what is released, as the rules say.

use rfb_wire::{ClientMessage, Text};
use roles::{Held, Input, Role};
use std::process::Abort;

fn press(held: &mut Held, key: u32) -> bool {
    held.passes(Role::Full, &ClientMessage::Key { down: true, key })
}

fn lift(held: &mut Held, key: u32) -> bool {
    held.passes(Role::Full, &ClientMessage::Key { down: false, key })
}

/// Whether this key is released next.
fn releases_key(held: &mut Held, wanted: u32) -> bool {
    match held.release() {
        Some(Input::Key { down: false, key }) => key == wanted,
        _ => false,
    }
}

/// Whether all buttons are released next, at this position.
fn releases_buttons(held: &mut Held, left: u16, top: u16) -> bool {
    match held.release() {
        Some(Input::Pointer { mask: 0, x, y }) => x == left && y == top,
        _ => false,
    }
}

fn check_passes<R: Abort>(rt: &R, held: &mut Held, role: Role, message: &ClientMessage) {
    assert!(rt; held.passes(role, message));
}

fn check_stays<R: Abort>(rt: &R, held: &mut Held, role: Role, message: &ClientMessage) {
    assert!(rt; !held.passes(role, message));
}

/// Nothing is left to release, however often that is asked.
fn check_nothing_left<R: Abort>(rt: &R, held: &mut Held) {
    assert!(rt; held.release().is_none());
    assert!(rt; held.release().is_none());
}

fn check_presses<R: Abort>(rt: &R, held: &mut Held) {
    for key in 1..65 {
        assert!(rt; press(held, 65 - key));
    }
    assert!(rt; !press(held, 65));
    assert!(rt; !lift(held, 65));
    assert!(rt; press(held, 1));
}

fn check_releases<R: Abort>(rt: &R, held: &mut Held) {
    for key in 1..65 {
        assert!(rt; releases_key(held, key));
    }
}

/// Keys 1 to 64 can be held, the 65th can't, and they are released by rising number, with no pointer.
#[test]
fn sixty_four_keys(rt: HostRuntime) {
    let mut held = Held::new();
    check_presses(&rt, &mut held);
    check_releases(&rt, &mut held);
    check_nothing_left(&rt, &mut held);
}

fn check_buttons<R: Abort>(rt: &R, held: &mut Held) {
    assert!(rt; releases_buttons(held, 1, 0));
}

/// A button that is down is released where the pointer was last.
#[test]
fn buttons_are_released(rt: HostRuntime) {
    let mut held = Held::new();
    let (mask, x, y) = (1, 1, 0);
    check_passes(
        &rt,
        &mut held,
        Role::Full,
        &ClientMessage::Pointer { mask, x, y },
    );
    check_buttons(&rt, &mut held);
    check_nothing_left(&rt, &mut held);
}

/// The text of a viewer with full control passes, and leaves nothing to release.
#[test]
fn texts_pass(rt: HostRuntime) {
    let mut held = Held::new();
    let text = ClientMessage::Cut(Text::from_vec(Vec::new(rt.alloc())));
    check_passes(&rt, &mut held, Role::Full, &text);
    check_nothing_left(&rt, &mut held);
}

/// A view-only viewer's pointer, keys and texts don't pass, and nothing is released.
#[test]
fn view_only(rt: HostRuntime) {
    let mut held = Held::new();
    let (mask, x, y) = (1, 1, 0);
    check_stays(
        &rt,
        &mut held,
        Role::View,
        &ClientMessage::Pointer { mask, x, y },
    );
    let (down, key) = (true, 97);
    check_stays(
        &rt,
        &mut held,
        Role::View,
        &ClientMessage::Key { down, key },
    );
    let text = ClientMessage::Cut(Text::from_vec(Vec::new(rt.alloc())));
    check_stays(&rt, &mut held, Role::View, &text);
    check_nothing_left(&rt, &mut held);
}
