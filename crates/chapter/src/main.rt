// Reads a take from standard input, one frame a line, and prints what it found.
#![tactic(auto)]

mod blocks;
mod drawing;
mod keeping;
mod planning;
mod report;
mod storing;

use frames::{Mono, Stereo};
use report::report;
use std::io::Read;
use takes::{Kind, kind_of};

fn run(rt: &HostRuntime) -> anyhow::Result<()> {
    let mut text = Vec::new(rt.alloc());
    rt.stdin().read_to_end(&mut text)?;
    let text = text.as_slice();
    let kind = kind_of(text);
    match kind {
        Some(Kind::Stereo) => report::<Stereo>(rt, kind, text),
        Some(Kind::Mono) | None => report::<Mono>(rt, kind, text),
    }
}

fn main(rt: HostRuntime) -> anyhow::Result<()> {
    run(&rt)
}
