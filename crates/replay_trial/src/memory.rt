//! Plays scripts on the heap that the programs have, where each growth in turn is refused.
//!
//! All of the process's address space is taken except a reserve, so that the C library refuses memory. While one line
//! of a script is played the reserve is taken, too, except a hole. The hole has no bytes at first, and then ever more,
//! until the line meets no refusal. None of this memory is written to, and other processes keep what they had.

use crate::hoard::Hoard;
use crate::lines::Lines;
use crate::refused::{Case, Outcome};
use replay::replay;
use std::alloc::{AllocError, Global};
use std::fs;
use std::test::Fail;

/// The address space has this many bytes. The system gives them in at most `BLOCKS` blocks.
const SPACE: usize = 1 << 47;

const BLOCKS: usize = 1 << 16;

/// The reserve, and the most blocks that it is taken in.
const RESERVE: usize = 1 << 23;

const PIECES: usize = 1 << 12;

/// This is more bytes than a script prints.
const PRINTED: usize = 1 << 16;

/// A hole has this many bytes more than the one before it. There are at most `HOLES` of them.
const STEP: usize = 16;

const HOLES: usize = 1 << 16;

/// Where steps aren't fine, a step grows by `STEP` for each `WIDE` bytes that the hole has.
const WIDE: usize = 1024;

/// Memory that is refused, and room for what a script prints.
#[derive(Drop)]
struct ScarceMemory {
    alloc: Global,
    // All memory except the reserve.
    taken: Hoard,
    hoard: Hoard,
    output: Vec<u8>,
}

impl ScarceMemory {
    /// Takes all memory except the reserve. It answers None where memory is never refused.
    fn new(alloc: Global) -> Result<Option<ScarceMemory>, AllocError> {
        let mut taken = Hoard::new(alloc, BLOCKS)?;
        let hoard = Hoard::new(alloc, PIECES)?;
        let output = Vec::with_capacity(alloc, PRINTED)?;
        let reserve: Vec<u8> = Vec::with_capacity(alloc, RESERVE)?;
        let is_refused = taken.take_all(SPACE);
        drop(reserve);
        Ok(is_refused.then_some(ScarceMemory {
            alloc,
            taken,
            hoard,
            output,
        }))
    }

    /// Plays a script with a hole of this many bytes at this line.
    fn play(&mut self, case: &Case<'_>, line: u64, hole: usize) -> Outcome {
        self.output.clear();
        let mut lines = Lines::new(case.script, &mut self.hoard, line, hole);
        let status = replay(self.alloc, &mut lines, &mut self.output);
        if lines.end() {
            case.outcome(status, self.output.as_slice())
        } else {
            Outcome::Otherwise
        }
    }

    /// Plays a script with ever larger holes at this line. It answers how often memory was refused, if each run came
    /// out as it should.
    fn refuse_at(&mut self, case: &Case<'_>, line: u64, is_fine: bool) -> Option<u64> {
        let (mut refused, mut hole): (u64, usize) = (0, 0);
        for _ in 0..HOLES {
            match self.play(case, line, hole) {
                Outcome::Whole => return Some(refused),
                Outcome::Refused => refused = refused.saturating_add(1),
                Outcome::Otherwise => return None,
            }
            let times = if is_fine { 0 } else { hole / WIDE };
            hole = hole.saturating_add(STEP.saturating_mul(times.saturating_add(1)));
        }
        None
    }

    /// Plays a script with holes before its first line and at each line. It answers at how many of these memory was
    /// refused, and how often in all.
    fn refuse_each(&mut self, case: &Case<'_>, is_fine: bool) -> Option<(u64, u64)> {
        let (mut places, mut runs): (u64, u64) = (0, 0);
        for (line, _) in case.script.split('\n').enumerate() {
            let refused = self.refuse_at(case, line as u64, is_fine)?;
            places = places.saturating_add(u64::from(refused > 0));
            runs = runs.saturating_add(refused);
        }
        Some((places, runs))
    }
}

/// Whether the system counts all memory that is asked for, so that taking it would take that of other processes.
fn counts_strictly(rt: &HostRuntime) -> bool {
    match fs::read_to_string(rt, "/proc/sys/vm/overcommit_memory") {
        Ok(text) => text.starts_with('2'),
        Err(_) => false,
    }
}

/// Plays the scripts of a file, and says at how many places of each memory was refused.
pub fn refuse_growths(rt: &HostRuntime, file: &str) -> Result<(), Fail> {
    if counts_strictly(rt) {
        return Err(Fail::new("the system counts memory strictly"));
    }
    let text = fs::read_to_string(rt, file)?;
    let Some(mut memory) = ScarceMemory::new(rt.alloc())? else {
        return Err(Fail::new("no memory is refused here"));
    };
    // The first script has fine steps throughout; the others begin with much the same lines.
    for (number, part) in text.as_str().split("= ").skip(1).enumerate() {
        let Some(case) = Case::read(part) else {
            return Err(Fail::new("no case"));
        };
        match memory.refuse_each(&case, number == 0) {
            Some((places, runs)) => {
                println!(rt;
                    "{}: refused at {places} places, each time as specified",
                    case.name
                )?;
                eprintln!(rt; "{}: refused {runs} times", case.name)?;
            }
            None => println!(rt; "{}: otherwise", case.name)?,
        }
    }
    Ok(())
}
