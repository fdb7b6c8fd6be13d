// What is told of a take: its kind and length, the lines that are no frame, its measures and its wave.
use crate::blocks::Blocks;
use crate::drawing::draw;
use frames::Frame;
use measures::{clip_run_of, energy_of, extent_of};
use takes::{Kind, Take, read_take};

// Reads the take and prints all that is told of it.
pub fn report<K: Frame>(rt: &HostRuntime, kind: Option<Kind>, text: &[u8]) -> anyhow::Result<()> {
    let take: Take<K> = read_take(rt.alloc(), text)?;
    for number in take.unread.as_slice() {
        println!(rt; "line {number} is no frame")?;
    }
    match kind {
        Some(kind) => println!(rt; "kind: {kind}")?,
        None => println!(rt; "kind: unknown")?,
    }
    let frames = take.frames.as_slice();
    println!(rt; "frames: {}", frames.len())?;
    if !frames.is_empty() {
        measures(rt, frames)?;
        draw(rt, frames)?;
        blocks(rt, frames)?;
    }
    Ok(())
}

// The take in blocks: in an image, as a row that is mended, and as a row of counted blocks.
fn blocks<K: Frame>(rt: &HostRuntime, frames: &[K]) -> anyhow::Result<()> {
    let blocks = Blocks::of(rt.alloc(), frames)?;
    blocks.keep(rt)?;
    blocks.plan(rt)?;
    blocks.keep_row(rt)?;
    blocks.fail_second_put(rt)
}

// The three measures of the whole take.
fn measures<K: Frame>(rt: &HostRuntime, frames: &[K]) -> anyhow::Result<()> {
    let extent = extent_of(frames);
    println!(rt; "lowest sample: {}", extent.low)?;
    println!(rt; "highest sample: {}", extent.high)?;
    println!(rt; "energy: {}", energy_of(frames).sum)?;
    println!(rt; "longest clipped run: {}", clip_run_of(frames).best)?;
    Ok(())
}
