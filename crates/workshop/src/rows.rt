// Rows of the report.
ghost use Rattle.std.specs.Prelude.{◌≡◌, ◌++◌, map, is_ok, if◌then◌else◌};
ghost use Rattle.workshop.specs.Columns.{column_of};
ghost use Rattle.workshop.specs.Rows.{row_bytes, row_numbers};

use crate::columns::{Field, WIDTH, column};
use crate::faults::Fault;
use std::alloc::AllocError;

const COLUMNS: usize = 6;

const LENGTH: usize = COLUMNS * WIDTH + 1;

// What was answered to a line of the file.
#[derive(Clone, Copy)]
pub struct Row {
    pub line: u32,
    pub answer: Result<(), Fault>,
}

impl Row {
    // Adds the row to the report, whole or not at all.
    pub(crate) fn print(&self, report: &mut Vec<u8>) -> Result<(), AllocError>
        ensures { report.new.items ≡ (if is_ok result then report.old.items ++ row_bytes self.now else report.old.items) }
    {
        report.extend_from_slice(&self.bytes())
    }

    // Six columns and a line feed.
    #[tactic(auto, using(crate::proofs::Printing::row_printed))]
    fn bytes(&self) -> [u8; LENGTH]
        ensures { result ≡ row_bytes self.now }
    {
        let mut bytes = [b'\n'; LENGTH];
        bytes[..COLUMNS * WIDTH].copy_from_slice(self.columns().as_flattened());
        bytes
    }

    fn columns(&self) -> [Field; COLUMNS]
        ensures { result ≡ map column_of (row_numbers self.now) }
    {
        self.numbers().map(column)
    }

    // The sheet comes last, and no answer has one yet.
    fn numbers(&self) -> [u32; COLUMNS]
        ensures { result ≡ row_numbers self.now }
    {
        let (answer, [first, second, third]) = match self.answer {
            Ok(()) => (0, [0; 3]),
            Err(fault) => (fault.number(), fault.details()),
        };
        [
            self.line,
            answer.into(),
            first.into(),
            second.into(),
            third.into(),
            0,
        ]
    }
}
