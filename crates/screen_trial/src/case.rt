//! Cases as they lie in a file.

use crate::bench::Bench;
use crate::formats::Formats;
use crate::hosts::{play_host, play_pieces};
use crate::lines::otherwise;
use crate::rects::Rects;
use crate::viewers::Viewer;
use painter::LastText;
use raster::Raster;
use reflect_core::Cut;
use std::alloc::Global;

/// The widest and highest screen, in pixels.
const LARGEST: u64 = 4096;

/// What is tried, the size of the screen that it is tried on, and lines.
#[derive(Clone, Copy)]
pub struct Case<'a> {
    kind: &'a str,
    width: u64,
    height: u64,
    pub name: &'a str,
    lines: &'a str,
}

impl<'a> Case<'a> {
    /// Reads `KIND WIDTH HEIGHT NAME` and a line feed, and the lines.
    pub fn read(text: &'a str) -> Option<Self> {
        let (head, lines) = text.split_once('\n')?;
        let (kind, rest) = head.split_once(' ')?;
        let (width, rest) = rest.split_once(' ')?;
        let (height, name) = rest.split_once(' ')?;
        Some(Case {
            kind,
            width: width.parse::<u64>().ok()?,
            height: height.parse::<u64>().ok()?,
            name,
            lines,
        })
    }

    /// The first line that comes out otherwise than told.
    pub fn otherwise(&self, alloc: Global) -> Option<&'a str> {
        let (w, h) = (self.width, self.height);
        if w < 1 || w > LARGEST || h < 1 || h > LARGEST {
            return Some("no size");
        }
        match self.kind {
            "format" => otherwise(alloc, &mut Formats, self.lines),
            "rect" => otherwise(alloc, &mut Rects, self.lines),
            "raster" => match Raster::new(alloc, w, h) {
                Ok(mut raster) => otherwise(alloc, &mut raster, self.lines),
                Err(_) => Some("no memory"),
            },
            "host" => play_host(alloc, w, h, 0, usize::MAX, self.lines),
            "pieces" => play_pieces(alloc, w, h, self.lines),
            "cut" => match Cut::new(alloc, w, h) {
                Ok(mut cut) => otherwise(alloc, &mut cut, self.lines),
                Err(_) => Some("no memory"),
            },
            "bench" => match Bench::new(alloc, w, h) {
                Ok(mut bench) => otherwise(alloc, &mut bench, self.lines),
                Err(_) => Some("no memory"),
            },
            "text" => match LastText::new(alloc) {
                Ok(mut text) => otherwise(alloc, &mut text, self.lines),
                Err(_) => Some("no memory"),
            },
            "viewer" => otherwise(alloc, &mut Viewer::new(w, h), self.lines),
            _ => Some("no kind"),
        }
    }
}
