ghost use Rattle.std.specs.Prelude.{◌≡◌, ◌<◌, ◌++◌, length, Ok, Err, IfOk, OnOk, MatchResult};
ghost use Rattle.std.specs.List.{flat_map};
ghost use Rattle.workshop.specs.Rows.{row_bytes};
ghost use Rattle.workshop.specs.Columns.{ColumnsAgree, ColumnsSideBySide};
ghost use Rattle.workshop.specs.Lines.{ended, lines_in};
ghost use Rattle.workshop.specs.Shape.{ReportsShaped};
ghost use Rattle.workshop.specs.Stages.{start};
ghost use Rattle.workshop.specs.Report.{file_gate, rows_from, report_of};

use crate::faults::Fault;
use crate::rows::Row;
use crate::stages::Stage;
use std::alloc::{AllocError, Global};

// A file of more bytes is not read.
pub const LONGEST: usize = 65_536;

// The report of a file's bytes, with what holds of every report.
#[tactic(auto, using(crate::proofs::Shapes::reports_shaped, crate::proofs::Agreeing::columns_agree, crate::proofs::Agreeing::columns_side_by_side))]
pub fn report(heap: Global, file: &[u8]) -> Result<Vec<u8>, AllocError>
    ensures bytes { IfOk result (λ v. v.items ≡ report_of file.now) }
    ensures shape { ReportsShaped }
    ensures columns { ColumnsAgree }
    ensures lines { ColumnsSideBySide }
{
    let mut report = Vec::new(heap);
    match checked(file) {
        Ok(text) => print_lines(text, &mut report)?,
        Err(fault) => Row {
            line: 0,
            answer: Err(fault),
        }
        .print(&mut report)?,
    }
    Ok(report)
}

// The file's text without its last line feed, or why it is not read.
fn checked(file: &[u8]) -> Result<&[u8], Fault>
    ensures gate { MatchResult result (λ t. file_gate file.now ≡ Ok tt) (λ f. file_gate file.now ≡ Err f) }
    ensures text { IfOk result (λ t. file.now ≡ ended t.now) }
    ensures short { IfOk result (λ t. length t.now < 65536) }
{
    if file.len() > LONGEST {
        return Err(Fault::TooLong);
    }
    match file {
        [text @ .., b'\n'] => Ok(text),
        _ => Err(Fault::Unfinished),
    }
}

// A row for each line of the text.
fn print_lines(text: &[u8], report: &mut Vec<u8>) -> Result<(), AllocError>
    requires { length text.now < 65536 }
    ensures { OnOk result (report.new.items ≡ report.old.items ++ flat_map row_bytes (rows_from 1 start (lines_in (ended text.now)))) }
{
    let mut stage = Stage::Start;
    for (i, line) in text.split(|byte| *byte == b'\n').enumerate() {
        let answer = stage.act(line);
        Row {
            line: i as u32 + 1,
            answer,
        }
        .print(report)?;
    }
    Ok(())
}
