//! Which input passes where several places send at once.

ghost use Rattle.std.specs.Prelude.{◌≡◌, ◌<◌, length};

use fault::Fault;
use rfb_wire::Text;
use roles::{Input, Strokes};
use std::process::Abort;
use std::test::*;

fn press(key: u32) -> Input {
    Input::Key { down: true, key }
}

fn lift(key: u32) -> Input {
    Input::Key { down: false, key }
}

fn point(mask: u8, x: u16) -> Input {
    Input::Pointer { mask, x, y: 0 }
}

fn check_passes<R: Abort>(rt: &R, strokes: &mut Strokes, place: u64, input: &Input)
    ensures { length strokes.new.counts ≡ length strokes.old.counts }
{
    assert!(rt; strokes.passes(place, input));
}

fn check_stays<R: Abort>(rt: &R, strokes: &mut Strokes, place: u64, input: &Input)
    ensures { length strokes.new.counts ≡ length strokes.old.counts }
{
    assert!(rt; !strokes.passes(place, input));
}

fn check_dropped<R: Abort>(rt: &R, strokes: &Strokes, place: u64, count: u64)
    requires { place < length strokes.now.counts }
{
    assert!(rt; strokes.dropped(place) == count);
}

/// A key that is pressed and released inside another place's drag doesn't pass; once the button is up a key does.
#[test]
fn key_inside_a_drag(rt: HostRuntime) -> Result<(), Fail> {
    let mut strokes = Strokes::new(rt.alloc(), 3)?;
    check_passes(&rt, &mut strokes, 1, &point(1, 0));
    check_stays(&rt, &mut strokes, 2, &press(0x41));
    check_stays(&rt, &mut strokes, 2, &lift(0x41));
    check_passes(&rt, &mut strokes, 1, &point(0, 1));
    check_passes(&rt, &mut strokes, 2, &press(0x42));
    check_dropped(&rt, &strokes, 2, 2);
    check_dropped(&rt, &strokes, 1, 0);
    Ok(())
}

/// The release of a key whose press didn't pass doesn't pass either, though nothing else is down any more.
#[test]
fn release_of_a_key_that_is_up(rt: HostRuntime) -> Result<(), Fail> {
    let mut strokes = Strokes::new(rt.alloc(), 3)?;
    check_passes(&rt, &mut strokes, 1, &press(0x61));
    check_stays(&rt, &mut strokes, 2, &press(0x41));
    check_passes(&rt, &mut strokes, 1, &lift(0x61));
    check_stays(&rt, &mut strokes, 2, &lift(0x41));
    check_passes(&rt, &mut strokes, 2, &press(0x42));
    check_dropped(&rt, &strokes, 2, 2);
    check_dropped(&rt, &strokes, 1, 0);
    Ok(())
}

/// Texts and movements of all places pass while nothing is down. Inside a stroke not even a text of another place does.
#[test]
fn texts_and_movements(rt: HostRuntime) -> Result<(), Fail> {
    let mut strokes = Strokes::new(rt.alloc(), 2)?;
    let text = Input::Cut(Text::from_vec(Vec::new(rt.alloc())));
    check_passes(&rt, &mut strokes, 0, &point(0, 5));
    check_passes(&rt, &mut strokes, 1, &point(0, 6));
    check_passes(&rt, &mut strokes, 0, &text);
    check_passes(&rt, &mut strokes, 1, &point(4, 6));
    check_stays(&rt, &mut strokes, 0, &text);
    check_stays(&rt, &mut strokes, 0, &point(0, 5));
    check_passes(&rt, &mut strokes, 1, &text);
    check_dropped(&rt, &strokes, 0, 2);
    check_dropped(&rt, &strokes, 1, 0);
    Ok(())
}

/// Keys 1 to 64 are pressed.
fn check_presses<R: Abort>(rt: &R, strokes: &mut Strokes)
    ensures { length strokes.new.counts ≡ length strokes.old.counts }
{
    for key in 1..65 {
        check_passes(rt, strokes, 0, &press(key));
    }
}

/// Keys 1 to 64 are released, and a press of the other place stays until the last of them is.
fn check_releases<R: Abort>(rt: &R, strokes: &mut Strokes)
    ensures { length strokes.new.counts ≡ length strokes.old.counts }
{
    for key in 1..65 {
        check_stays(rt, strokes, 1, &press(7));
        check_passes(rt, strokes, 0, &lift(key));
    }
}

/// A place holds at most 64 keys, and each of them keeps its stroke open.
#[test]
fn sixty_four_keys(rt: HostRuntime) -> Result<(), Fail> {
    let mut strokes = Strokes::new(rt.alloc(), 2)?;
    check_presses(&rt, &mut strokes);
    check_stays(&rt, &mut strokes, 0, &press(65));
    check_stays(&rt, &mut strokes, 0, &lift(65));
    check_passes(&rt, &mut strokes, 0, &press(64));
    check_releases(&rt, &mut strokes);
    check_passes(&rt, &mut strokes, 1, &press(7));
    check_dropped(&rt, &strokes, 0, 2);
    check_dropped(&rt, &strokes, 1, 64);
    Ok(())
}

/// Where there is no memory for the counts no relay is made.
#[test]
fn no_room_for_counts(rt: HostRuntime) {
    let refused = Strokes::new(rt.alloc(), u64::MAX);
    assert!(rt; matches!(refused, Err(Fault::Memory)));
}
