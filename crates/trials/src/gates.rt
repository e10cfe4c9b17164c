// Every gate of a book with few places, and of a file.

use bolting::bolt_groups::BoltGroupEntry;
use book::drafting::Drafting;
use book::refusals::Refusal;
use book::tables::Places;
use parts::plates::PlateEntry;
use parts::welds::WeldEntry;
use std::process::Abort;
use std::test::Fail;
use workshop::file::report;

#[derive(Clone, Copy)]
enum Deed {
    Plate(i32),
    Group(i32, i32, i32),
    Weld(i32, i32, i32),
    Strike(i32),
}

fn done(book: &mut Drafting<()>, deed: Deed) -> Result<(), Refusal> {
    match deed {
        Deed::Plate(mark) => book.add(PlateEntry::from([mark, 10, 275])),
        Deed::Group(mark, plate_a, plate_b) => {
            let fields = [mark, plate_a, plate_b, 20, 88, 2, 2, 40, 70, 40, 70];
            book.add(BoltGroupEntry::from(fields))
        }
        Deed::Weld(mark, plate_a, plate_b) => book.add(WeldEntry::from([
            mark, plate_a, plate_b, 50, 200,
        ])),
        Deed::Strike(mark) => book.strike(mark),
    }
}

// The number of an answer and its first detail, as the report prints them; 0 is done.
fn told(answer: Result<(), Refusal>) -> (u8, u16) {
    match answer {
        Ok(()) => (0, 0),
        Err(refusal) => (refusal.number(), refusal.details()[0]),
    }
}

fn begun(plates: usize, bolt_groups: usize, welds: usize) -> Drafting<()> {
    let places = Places {
        plates,
        bolt_groups,
        welds,
        loads: 0,
    };
    Drafting::begin((), places)
}

// Does the book answer the deeds, one after the other, as it should?
fn follow(rt: &impl Abort, mut book: Drafting<()>, deeds: &[(Deed, (u8, u16))]) {
    for (deed, expected) in deeds {
        assert_eq!(rt; told(done(&mut book, *deed)), *expected);
    }
}

#[test]
fn plates_fill_their_places(rt: HostRuntime) {
    let deeds = [
        (Deed::Plate(0), (21, 1)),
        (Deed::Plate(1), (0, 0)),
        (Deed::Plate(1), (22, 1)),
        (Deed::Plate(2), (0, 0)),
        (Deed::Plate(2), (22, 1)),
        (Deed::Plate(3), (25, 0)),
        (Deed::Group(7, 1, 2), (25, 0)),
        (Deed::Group(7, 1, 3), (23, 3)),
    ];
    follow(&rt, begun(2, 0, 0), &deeds);
}

#[test]
fn components_share_their_marks(rt: HostRuntime) {
    let deeds = [
        (Deed::Plate(1), (0, 0)),
        (Deed::Plate(2), (0, 0)),
        (Deed::Group(7, 1, 1), (21, 3)),
        (Deed::Group(7, 3, 4), (23, 2)),
        (Deed::Group(7, 1, 2), (0, 0)),
        (Deed::Weld(7, 3, 4), (22, 1)),
        (Deed::Weld(8, 2, 3), (23, 3)),
        (Deed::Weld(8, 2, 1), (0, 0)),
        (Deed::Weld(9, 2, 1), (25, 0)),
        (Deed::Group(8, 1, 2), (22, 1)),
    ];
    follow(&rt, begun(50, 1, 1), &deeds);
}

#[test]
fn struck_marks_are_free_again(rt: HostRuntime) {
    let deeds = [
        (Deed::Plate(1), (0, 0)),
        (Deed::Plate(2), (0, 0)),
        (Deed::Strike(10000), (21, 1)),
        (Deed::Strike(7), (23, 1)),
        (Deed::Group(7, 1, 2), (0, 0)),
        (Deed::Strike(7), (0, 0)),
        (Deed::Strike(7), (23, 1)),
        (Deed::Weld(7, 1, 2), (0, 0)),
        (Deed::Strike(7), (0, 0)),
        (Deed::Group(7, 2, 1), (0, 0)),
    ];
    follow(&rt, begun(2, 1, 1), &deeds);
}

#[test]
fn no_more_places_than_there_are(rt: HostRuntime) {
    let mut book = begun(1000, 1000, 1000);
    for mark in 1..51 {
        assert_eq!(rt; told(done(&mut book, Deed::Plate(mark))), (0, 0));
    }
    assert_eq!(rt; told(done(&mut book, Deed::Plate(51))), (25, 0));
}

#[test]
fn file_gates(rt: HostRuntime) -> Result<(), Fail> {
    let cases: [(&[u8], &[u8]); 8] = [
        (b"", b"     0    16     0     0     0     0\n"),
        (
            b"A     1   100   125",
            b"     0    16     0     0     0     0\n",
        ),
        (b"\n", b"     1    11     0     0     0     0\n"),
        (b"a\n", b"     1    11     0     0     0     0\n"),
        (b"P 1\n", b"     1    12     0     0     0     0\n"),
        (
            b"P     1    10   27 \n",
            b"     1    13     0     0     0     0\n",
        ),
        (
            b"A     1  0100   125\n",
            b"     1    14     2     0     0     0\n",
        ),
        (
            b"A     3   100   125\n",
            b"     1    21     1     0     0     0\n",
        ),
    ];
    for (file, expected) in cases {
        let given = report(rt.alloc(), file)?;
        assert!(rt; given.as_slice() == expected);
    }
    Ok(())
}
