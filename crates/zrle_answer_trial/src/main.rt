//! Writes rectangles in ZRLE and whole answers, one per line, as one connection has them. `README.md` says what the lines are.
#![tactic(auto)]

mod cases;
mod screens;
mod sharing;
mod words;

use cases::print_rectangle;
use screens::print_answer;
use std::test::Fail;
use words::parted;
use zrle_answer::{AnswerWriter, RectangleWriter};

fn main(rt: HostRuntime) -> Result<(), Fail> {
    let alloc = rt.alloc();
    let mut writer = RectangleWriter::new(alloc)?;
    let mut answers = AnswerWriter::new(alloc)?;
    let mut begun = false;
    for line in rt.lines(alloc) {
        let line = line?;
        let (kind, rest) = parted(line.as_str());
        match kind {
            "rectangle" => {
                print_rectangle(&rt, &mut writer, begun, rest)?;
                begun = true;
            }
            "answer" => begun = print_answer(&rt, &mut answers, begun, rest)?,
            "" | "#" => {}
            _ => return Err(Fail::new("no such line")),
        }
    }
    Ok(())
}
