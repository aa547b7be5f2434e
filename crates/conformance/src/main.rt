//! The conformance program: it makes the text of the input of each case of two tables, of reports and of causes. It
//! says of either table how many texts are as expected, and shows the first that differs.
#![tactic(auto)]

mod question;
mod table;
mod tally;
mod verdict;

use crate::verdict::run_tables;
use anyhow::ensure;
use std::fs;
use std::io::Write;

/// Ends with status 1 where a case differs, a table is damaged or cannot be read, memory is not found or standard
/// output fails.
fn main(rt: HostRuntime) -> anyhow::Result<()> {
    let cases = fs::read(&rt, "cases.bin")?;
    let causes = fs::read(&rt, "causes.bin")?;
    let verdict = run_tables(rt.alloc(), cases.as_slice(), causes.as_slice())?;
    rt.stdout().write_all(verdict.text.as_slice())?;
    ensure!(verdict.passed, "a table did not pass");
    Ok(())
}
