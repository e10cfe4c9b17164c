#![tactic(auto)]

use std::io::{Read, Write};
use workshop::file::{LONGEST, report};

// Reads a workshop's file from standard input and writes its report to standard output. The report
// is made whole before its first byte is written.
fn run(rt: &HostRuntime) -> anyhow::Result<()> {
    let mut file = Vec::new(rt.alloc());
    // One byte past the limit is enough to tell a file that is too long.
    rt.stdin().take(LONGEST as u64 + 1).read_to_end(&mut file)?;
    let rows = report(rt.alloc(), file.as_slice())?;
    rt.stdout().write_all(rows.as_slice())?;
    Ok(())
}

fn main(rt: HostRuntime) -> anyhow::Result<()> {
    run(&rt)
}
