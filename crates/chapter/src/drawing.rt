// The wave of a take as text: a column for each stretch of frames, marked from its highest sample down to its lowest.
ghost use Rattle.std.specs.Prelude.{◌<◌};

use frames::Frame;
use measures::{Extent, extent_of};

const COLUMNS: usize = 64;

const ROWS: usize = 9;

// How many frames a column stands for, so that all of them fit.
fn zoom_of(count: usize) -> usize
    ensures { 0 < result }
{
    count.div_ceil(COLUMNS).max(1)
}

// The row, from the top, in which a sample of 16 bits lies.
fn row_of(sample: i32) -> usize
    ensures { result < 9 }
{
    let down = (32767 - i64::from(sample)).clamp(0, 65535) as usize;
    down * ROWS / 65536
}

fn mark(column: &Extent, row: usize) -> char {
    if row_of(column.high) <= row && row <= row_of(column.low) {
        '#'
    } else {
        '.'
    }
}

// Prints the wave.
pub fn draw<K: Frame>(rt: &HostRuntime, frames: &[K]) -> anyhow::Result<()> {
    let zoom = zoom_of(frames.len());
    let columns: Vec<Extent> = frames
        .chunks(zoom)
        .map(|stretch| extent_of(stretch))
        .collect(rt.alloc())?;
    println!(rt; "wave, frames a column: {zoom}")?;
    for row in 0..ROWS {
        let line: String = columns
            .iter()
            .map(|column| mark(column, row))
            .collect(rt.alloc())?;
        println!(rt; "{line}")?;
    }
    Ok(())
}
