// Runs the files of data/ through the library and compares their reports with those that an
// independent implementation gave.
#![tactic(auto)]

use std::fs;
use workshop::file::report;

// The bytes of a row, with its line feed.
const ROW: usize = 37;

// How many rows are compared: those of the lines before the first S, which does nothing yet, and all where the whole
// case is meant or the file is refused. What stands behind the last line feed is no line.
fn rows_compared(whole: bool, file: &[u8], expected: &[u8]) -> usize {
    if whole || expected.starts_with(b"     0") {
        return usize::MAX;
    }
    file.split_inclusive(|byte| *byte == b'\n')
        .take_while(|line| line.ends_with(b"\n") && !line.starts_with(b"S"))
        .count()
}

// Does the library give the file's report, in the rows that are compared?
fn agrees(rt: &HostRuntime, name: &str, whole: bool) -> anyhow::Result<bool> {
    let heap = rt.alloc();
    let file = fs::read(rt, format!(in heap; "{name}.in")?.as_str())?;
    let expected = fs::read(rt, format!(in heap; "{name}.out")?.as_str())?;
    let given = report(heap, file.as_slice())?;
    let rows = rows_compared(whole, file.as_slice(), expected.as_slice());
    Ok(
        given
            .as_slice()
            .chunks(ROW)
            .take(rows)
            .eq(expected.as_slice().chunks(ROW).take(rows)),
    )
}

fn run(rt: &HostRuntime) -> anyhow::Result<()> {
    let index = fs::read_to_string(rt, "INDEX")?;
    // Counts, since a list of the answers would take memory for each file.
    let mut files: usize = 0;
    let mut agreeing: usize = 0;
    for (name, kind) in index
        .as_str()
        .lines()
        .filter_map(|line| line.split_once(' '))
    {
        files = files.saturating_add(1);
        if agrees(rt, name, kind == "whole")? {
            agreeing = agreeing.saturating_add(1);
        } else {
            println!(rt; "{name} differs")?;
        }
    }
    println!(rt; "{agreeing} of {files} files agree")?;
    Ok(())
}

fn main(rt: HostRuntime) -> anyhow::Result<()> {
    run(&rt)
}
