// Puts the questions of the tables in data/ to an annex, and compares its answers with those that
// independent implementations gave. A row: make γM0 γM2 | B d class rows columns e1 p1 e2 p2 tA gradeA tB
// gradeB (or W a L tA gradeA tB gradeB) | clause | s1 s2 s3 | 1 met, 0 not.
#![tactic(auto)]

use annex::{Annex, Standard};
use bolting::bolt_groups::BoltGroupEntry;
use components::{Component, Plates, Sizes};
use parts::annexes::AnnexEntry;
use parts::entries::Entry;
use parts::plates::{Plate, PlateEntry};
use parts::welds::WeldEntry;
use std::fs;

// A number of a row as an entry takes it; none of the tables has a larger one there.
fn field(number: i64) -> i32 {
    i32::try_from(number).unwrap_or(-1)
}

fn size(number: i64) -> u32 {
    u32::try_from(number).unwrap_or(u32::MAX)
}

fn plate(mark: i32, thickness: i64, grade: i64) -> Option<Plate> {
    PlateEntry::from([mark, field(thickness), field(grade)])
        .checked()
        .ok()
}

fn plates(numbers: &[i64]) -> Option<Plates> {
    let [thickness_a, grade_a, thickness_b, grade_b] = numbers else {
        return None;
    };
    Some(Plates {
        plate_a: plate(1, *thickness_a, *grade_a)?,
        plate_b: plate(2, *thickness_b, *grade_b)?,
    })
}

fn component(numbers: &[i64]) -> Option<Component> {
    match numbers {
        [d, class, rows, columns, e1, p1, e2, p2, steel @ ..] if steel.len() == 4 => {
            let group = BoltGroupEntry::from([
                7, 1, 2, *d, *class, *rows, *columns, *e1, *p1, *e2, *p2,
            ].map(field));
            Some(Component::Bolted(group.checked().ok()?, plates(steel)?))
        }
        [throat, length, steel @ ..] => {
            let weld = WeldEntry::from([8, 1, 2, *throat, *length].map(field));
            Some(Component::Welded(weld.checked().ok()?, plates(steel)?))
        }
        _ => None,
    }
}

fn answer(annex: &impl Annex, component: &Component, clause: u8, sizes: Sizes) -> bool {
    if clause < 30 {
        annex.layout_met(component, clause)
    } else {
        annex.strength_met(component, clause, sizes)
    }
}

// Does the annex answer the row as it should, each time that it is asked? A row that is none does not
// agree.
fn agrees(numbers: &[i64]) -> Option<bool> {
    let (joint, question) = numbers.split_at(numbers.len().saturating_sub(5));
    let [make, gamma_m0, gamma_m2, parts @ ..] = joint else {
        return None;
    };
    let [clause, s1, s2, s3, expected] = question else {
        return None;
    };
    let entry = AnnexEntry::from([*make, *gamma_m0, *gamma_m2].map(field));
    let annex = Standard::new(entry).ok()?;
    let sizes = Sizes {
        s1: size(*s1),
        s2: size(*s2),
        s3: size(*s3),
    };
    let clause = u8::try_from(*clause).ok()?;
    let component = component(parts)?;
    let ask = || answer(&annex, &component, clause, sizes);
    let expected = *expected == 1;
    Some(ask() == expected && ask() == expected)
}

// The numbers of a row, without its letter and bars.
fn numbers(rt: &HostRuntime, row: &str) -> anyhow::Result<Vec<i64>> {
    let numbers = row
        .split_whitespace()
        .filter_map(|word| word.parse::<i64>().ok())
        .collect(rt.alloc())?;
    Ok(numbers)
}

// Does the annex agree with a row of a table? A row that differs is printed.
fn ask_row(rt: &HostRuntime, name: &str, row: &str) -> anyhow::Result<bool> {
    let agrees = agrees(numbers(rt, row)?.as_slice()) == Some(true);
    if !agrees {
        println!(rt; "{name} differs: {row}")?;
    }
    Ok(agrees)
}

// Asks every row of a table, and prints how many agree.
fn ask(rt: &HostRuntime, name: &str) -> anyhow::Result<()> {
    let table = fs::read_to_string(rt, format!(in rt.alloc(); "{name}.txt")?.as_str())?;
    // Counts, since a list of the answers would take memory for each row.
    let mut rows: usize = 0;
    let mut agreeing: usize = 0;
    for row in table.as_str().lines().filter(|row| !row.starts_with('#')) {
        rows = rows.saturating_add(1);
        agreeing = agreeing.saturating_add(usize::from(ask_row(rt, name, row)?));
    }
    println!(rt; "{name}: {agreeing} of {rows} rows agree")?;
    Ok(())
}

fn run(rt: &HostRuntime) -> anyhow::Result<()> {
    for table in ["clauses", "layout", "strength"] {
        ask(rt, table)?;
    }
    Ok(())
}

fn main(rt: HostRuntime) -> anyhow::Result<()> {
    run(&rt)
}
