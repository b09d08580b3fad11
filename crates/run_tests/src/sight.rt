//! What a viewer asks for, and whether it was shown that.

use crate::follower::{Area, CameEncodings, Follower, Format};
use crate::picture::Picture;

/// The screen of a run, how its viewers are greeted, and what its host paints, in no more updates than this.
pub(crate) struct View {
    pub(crate) w: u64,
    pub(crate) h: u64,
    pub(crate) greeting: &'static [u8],
    pub(crate) picture: Picture,
    pub(crate) updates: u64,
}

impl View {
    /// Whether these are the colours after this many updates, row after row.
    pub(crate) fn is_held(&self, colours: &[u32], number: u64) -> bool {
        let mut x = 0;
        let mut y = 0;
        for colour in colours {
            if u64::from(*colour) != self.picture.colour(number, x, y) {
                return false;
            }
            x = x.wrapping_add(1);
            if x == self.w {
                x = 0;
                y = y.wrapping_add(1);
            }
        }
        x == 0 && y == self.h
    }
}

/// A viewer that follows what it is given: its format, the area that it asks for, and the encodings that have to come.
pub(crate) struct Sight {
    pub(crate) format: Format,
    pub(crate) area: Area,
    pub(crate) encodings: CameEncodings,
}

impl Sight {
    fn shows_row(&self, follower: &Follower, picture: &Picture, number: u64, y: u64) -> bool {
        for column in 0..self.area.w {
            let x = self.area.x.wrapping_add(column);
            if follower.at(x, y) != self.format.tint(picture.colour(number, x, y)) {
                return false;
            }
        }
        true
    }

    /// Whether it holds the area as it is after this many updates.
    fn shows(&self, follower: &Follower, picture: &Picture, number: u64) -> bool {
        for row in 0..self.area.h {
            let y = self.area.y.wrapping_add(row);
            if !self.shows_row(follower, picture, number, y) {
                return false;
            }
        }
        true
    }

    /// The least number of updates, from this one on, after which the area is as it is held.
    pub(crate) fn number(&self, follower: &Follower, view: &View, least: u64) -> Option<u64> {
        for number in least..=view.updates {
            if self.shows(follower, &view.picture, number) {
                return Some(number);
            }
        }
        None
    }

    /// Whether each of the encodings came.
    pub(crate) fn has_come(&self, follower: &Follower) -> bool {
        let came = follower.came;
        let encodings = &self.encodings;
        (came.raw || !encodings.raw)
            && (came.copy || !encodings.copy)
            && (came.rre || !encodings.rre)
            && (came.hextile || !encodings.hextile)
    }
}
