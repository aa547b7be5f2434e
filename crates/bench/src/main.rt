//! The bench: standard input to a report of what an observer may see.
#![tactic(auto)]

use anyhow::Context;
use report::{Input, report};
use std::io::Read;

/// Ends with status 1 where standard input cannot be read, memory is not found or standard output fails.
fn main(rt: HostRuntime) -> anyhow::Result<()> {
    let mut bytes = Vec::new(rt.alloc());
    // One byte past the longest input shows that there is too much.
    rt.stdin()
        .take(Input::LONGEST as u64 + 1)
        .read_to_end(&mut bytes)
        .context("reading standard input")?;
    let text = report(rt.alloc(), bytes.as_slice())?;
    rt.print(text)?;
    Ok(())
}
