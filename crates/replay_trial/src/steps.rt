//! What is played act by act, as it lies in a file.

ghost use Rattle.raster.specs.Size.{IsScreenSize};

use crate::sessions::{play_held, play_session};
use crate::worlds::play_world;
use joined_runs::RectForm;
use raster::Size;
use roles::Role;
use std::alloc::Global;
use std::fs;
use std::test::Fail;
use viewer_session::AnswerForm;

/// The widest and highest screen, in pixels.
const LARGEST: u64 = 4096;

/// The size of the host's screen at first, where sizes are told.
const PIXEL: Size = Size {
    width: 1,
    height: 1,
};

/// The same where it is larger than the room.
const LARGER: Size = Size {
    width: 9,
    height: 1,
};

/// How a viewer is answered without ZRLE and copies of the host.
const PLAIN: AnswerForm = AnswerForm {
    runs: RectForm::OfRows,
    zrle: false,
    copies: false,
};

/// The same with ZRLE.
const WITH_ZRLE: AnswerForm = AnswerForm {
    runs: RectForm::OfRows,
    zrle: true,
    copies: false,
};

/// The same with copies of the host.
const WITH_COPIES: AnswerForm = AnswerForm {
    runs: RectForm::OfRows,
    zrle: false,
    copies: true,
};

/// Where bytes come in two pieces they are cut at each place up to this one.
const LAST_CUT: usize = 24;

/// A world, a session or what a viewer holds, on a screen of this size, with what is done and what is seen.
#[derive(Clone, Copy)]
struct Case<'a> {
    kind: &'a str,
    width: u64,
    height: u64,
    name: &'a str,
    lines: &'a str,
}

impl<'a> Case<'a> {
    /// Reads `KIND WIDTH HEIGHT NAME` and a line feed, and the lines.
    fn read(text: &'a str) -> Option<Self> {
        let (head, lines) = text.split_once('\n')?;
        let (kind, rest) = head.split_once(' ')?;
        let (width, rest) = rest.split_once(' ')?;
        let (height, name) = rest.split_once(' ')?;
        Some(Case {
            kind,
            width: width.parse::<u64>().ok()?,
            height: height.parse::<u64>().ok()?,
            name,
            lines,
        })
    }

    /// The first line that comes out otherwise than told.
    fn otherwise(&self, alloc: Global) -> Option<&'a str> {
        if self.width < 1 || self.width > LARGEST || self.height < 1 || self.height > LARGEST {
            return Some("no size");
        }
        match self.kind {
            "world" => play_world(alloc, self.width, self.height, self.lines, 0),
            "cuts" => self.otherwise_cut(alloc),
            "open" => self.otherwise_of(alloc, true, None, PLAIN),
            "ready" => self.otherwise_of(alloc, false, None, PLAIN),
            "zrle" => self.otherwise_of(alloc, false, None, WITH_ZRLE),
            "copies" => self.otherwise_of(alloc, false, None, WITH_COPIES),
            "sized" => self.otherwise_of(alloc, false, Some(PIXEL), PLAIN),
            "larger" => self.otherwise_of(alloc, false, Some(LARGER), PLAIN),
            "full" => play_held(Role::Full, self.lines),
            "view" => play_held(Role::View, self.lines),
            _ => Some("no kind"),
        }
    }

    /// The first such line of a session, with its hello or after it. Where there is a host's size, its viewer is told
    /// of sizes, and this is the first.
    fn otherwise_of(
        &self,
        alloc: Global,
        greets: bool,
        host: Option<Size>,
        form: AnswerForm,
    ) -> Option<&'a str>
        requires { IsScreenSize self.now.width self.now.height }
    {
        play_session(
            alloc,
            self.width,
            self.height,
            self.lines,
            greets,
            host,
            form,
        )
    }

    /// The first such line of a world whose viewer's bytes are cut, at one place after the other.
    fn otherwise_cut(&self, alloc: Global) -> Option<&'a str>
        requires { IsScreenSize self.now.width self.now.height }
    {
        for cut in 0..=LAST_CUT {
            let line = play_world(alloc, self.width, self.height, self.lines, cut);
            if line.is_some() {
                return line;
            }
        }
        None
    }
}

/// Plays each case of a file, names those lines that come out otherwise than told, and says how many cases there are.
pub fn play_steps(rt: &HostRuntime, file: &str) -> Result<(), Fail> {
    let text = fs::read_to_string(rt, file)?;
    let mut count: u64 = 0;
    for case in text.as_str().split("= ").skip(1) {
        let Some(case) = Case::read(case) else {
            return Err(Fail::new("no case"));
        };
        count = count.saturating_add(1);
        if let Some(line) = case.otherwise(rt.alloc()) {
            println!(rt; "otherwise: {}, at {line}", case.name)?;
        }
    }
    println!(rt; "{file}: {count} played")?;
    Ok(())
}
