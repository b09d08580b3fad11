//! What a viewer has asked for, and the last text.

ghost use Rattle.std.specs.Prelude.{◌≡◌, ◌≤◌, length, IfSome};
ghost use Rattle.raster.specs.Size.{IsScreenSize};

use crate::lines::Tried;
use crate::rects::rect_of;
use crate::values::Values;
use fault::LONGEST_TEXT;
use painter::LastText;
use reflect_core::Asked;
use std::alloc::Global;

/// The bytes of a text: those of a line, or so many that are equal where two numbers say so.
pub fn text_of(alloc: Global, numbers: &[u64], bytes: &[u8]) -> Option<Vec<u8>>
    ensures { IfSome result (λ text. length text.items ≤ 65536) }
{
    match numbers {
        [] if bytes.len() <= LONGEST_TEXT as usize => bytes.to_vec(alloc).ok(),
        [count, byte] if *count <= u64::from(LONGEST_TEXT) => {
            vec![in alloc; u8::try_from(*byte).ok()?; *count as usize].ok()
        }
        _ => None,
    }
}

/// Tells a text, if there is one.
pub fn tell_text(text: &LastText, seen: &mut Values) -> Option<()> {
    match text.number() {
        Some(number) => {
            seen.tell(&[number])?;
            seen.tell_text(text.bytes())
        }
        None => Some(()),
    }
}

impl Tried for LastText {
    fn play(&mut self, alloc: Global, word: &str, given: &Values, seen: &mut Values) -> Option<()> {
        let bytes = given.bytes.as_slice();
        match (word, given.numbers.as_slice()) {
            ("set", [number, rest @ ..]) => {
                let text = text_of(alloc, rest, bytes)?;
                self.set(text.as_slice(), *number);
            }
            ("follow", [number]) if bytes.is_empty() => self.follow(None, *number),
            ("follow", [number]) if bytes.len() <= 64 => self.follow(Some(bytes), *number),
            ("clear", []) => self.clear(),
            ("longest", []) => seen.tell(&[u64::from(LONGEST_TEXT)])?,
            ("text", []) => tell_text(self, seen)?,
            _ => return None,
        }
        Some(())
    }
}

/// What a viewer of a screen of this size has asked for.
#[derive(Drop)]
pub struct Viewer {
    width: u64,
    height: u64,
    asked: Asked,
    ghost size: { (asked.width ≡ width) × (asked.height ≡ height) },
}

impl Viewer {
    /// One that has asked for nothing.
    pub fn new(width: u64, height: u64) -> Self
        requires { IsScreenSize width height }
    {
        Viewer {
            width,
            height,
            asked: Asked::new(width, height),
        }
    }
}

impl Tried for Viewer {
    fn play(
        &mut self,
        _alloc: Global,
        word: &str,
        given: &Values,
        seen: &mut Values,
    ) -> Option<()> {
        let numbers = given.numbers.as_slice();
        match (word, numbers) {
            ("new_format", []) => self.asked.new_format(),
            ("answered", [number]) => self.asked.answered(*number),
            ("was_cut", [number]) => self.asked.was_cut(*number),
            ("asked", []) => {
                seen.tell(&[u64::from(self.asked.has_asked())])?;
                if let Some(area) = self.asked.area() {
                    seen.tell(&[area.x, area.y, area.w, area.h])?;
                }
            }
            ("last_cut", []) => {
                if let Some(number) = self.asked.last_cut() {
                    seen.tell(&[number])?;
                }
            }
            ("request", _) => {
                let (area, _) = rect_of(numbers)?;
                if !area.within(self.width, self.height) {
                    return None;
                }
                self.asked.request(&area);
            }
            _ => return None,
        }
        Some(())
    }
}
