//! Measures how long a codec takes for one rectangle.

use crate::codec::{draw, values_of, write};
use crate::record::Record;
use joined_runs::RectForm;
use raster::Raster;
use std::test::Fail;
use std::time::Instant;

/// The least time in microseconds, of this many rounds, in which the data is read and drawn.
pub fn reading_micros(rt: &HostRuntime, record: &Record<'_>, rounds: u64) -> Result<u128, Fail> {
    let (width, height) = (u64::from(record.width), u64::from(record.height));
    let mut raster = Raster::new(rt.alloc(), width, height)?;
    let mut least = u128::MAX;
    for _ in 0..rounds {
        let start = Instant::now(rt)?;
        let _ = draw(record, &mut raster)?;
        least = least.min(start.elapsed(rt)?.as_micros());
    }
    Ok(least)
}

/// The least time in microseconds, of this many rounds, in which the pixels are written, and how many bytes are
/// written: 0 where Raw is as short.
pub fn writing_micros(
    rt: &HostRuntime,
    record: &Record<'_>,
    rounds: u64,
) -> Result<(u128, usize), Fail> {
    let values = values_of(rt.alloc(), &record.format, record.pixels)?;
    let mut out = vec![in rt.alloc(); 0u8; record.pixels.len()]?;
    let mut least = u128::MAX;
    let mut count = 0;
    for _ in 0..rounds {
        let start = Instant::now(rt)?;
        count = write(
            RectForm::OfRows,
            record,
            values.as_slice(),
            out.as_mut_slice(),
        )
        .unwrap_or(0);
        least = least.min(start.elapsed(rt)?.as_micros());
    }
    Ok((least, count))
}
