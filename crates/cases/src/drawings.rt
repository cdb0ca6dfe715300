// Lists of calls on small blocks.
use crate::block::block;
use crate::trays::with_places;
use drawing::{
    Asked, DrawRefusal, Ending, Letter, OpenRefusal, Progress, Report, SolidTest, Unfinished,
};
use grid::Voxel;
use scan::{Block, Cause, Fault};
use session::{Answer, Call, Entry};
use std::alloc::Global;
use std::process::Abort;
use std::test::Fail;
use tray::{AnyTray, RecordTray, TextTray, Tray, Triangle};

// A call that is not made yet.
pub(crate) fn entry(call: Call) -> Entry {
    Entry { call, answer: None }
}

// An opening under H and (18,6).
pub(crate) fn open(threshold: u16) -> Entry {
    let test = SolidTest {
        threshold,
        letter: Letter::H,
    };
    entry(Call::Open(Asked { test, s: 18, h: 6 }))
}

// A draw into a tray, as an entry; the program that draws a housing has the call alone.
pub(crate) fn draw(tray: usize, budget: u32) -> Entry {
    entry(Call::Draw { tray, budget })
}

// What a draw answers.
fn drawn(drawn: u32, laid: u32, left: u32, ending: Ending) -> Option<Answer> {
    Some(Answer::Drawn(Ok(Progress {
        drawn,
        laid,
        left,
        ending,
    })))
}

// Makes the calls on a block and some trays, with no other scan.
fn run<T: Tray>(block: &Block, trays: &mut [T], entries: &mut [Entry]) {
    let others: [Block; 0] = [];
    let _ = session::run(block, &others, trays, entries);
}

// What opening a block of 2 x 2 x 2 values answers.
fn opened(heap: Global, values: &[u16], threshold: u16) -> Result<Option<Answer>, Fail> {
    let block = block(heap, [2, 2, 2], values)?;
    let mut entries = [open(threshold)];
    let mut none: [RecordTray; 0] = [];
    run(&block, &mut none, &mut entries);
    Ok(entries[0].answer)
}

#[test]
fn refused_openings(rt: HostRuntime) -> Result<(), Fail> {
    let heap = rt.alloc();
    let one = [9, 0, 0, 0, 0, 0, 0, 0];
    let voxel = Voxel { x: 1, y: 0, z: 0 };
    let mixed = Some(Answer::Opened(Err(OpenRefusal::Mixed { voxel })));
    assert_eq!(rt; opened(heap, &one, 5)?, mixed);
    let zero = Some(Answer::Opened(Err(OpenRefusal::ZeroThreshold)));
    assert_eq!(rt; opened(heap, &one, 0)?, zero);
    let voxel = Voxel { x: 1, y: 1, z: 1 };
    let fault = Fault::own(Cause::NoReading, voxel);
    let lacking = Some(Answer::Opened(Err(OpenRefusal::Lacking { voxel, fault })));
    assert_eq!(rt; opened(heap, &[9, 0, 0, 0, 0, 0, 0, 65_535], 5)?, lacking);
    assert_eq!(rt; opened(heap, &[9; 8], 5)?, Some(Answer::Opened(Ok(()))));
    Ok(())
}

// Two voxels side by side in a block of 4 x 3 x 3: cube 10 has mask 3.
fn two_voxels() -> [u16; 36] {
    let mut values = [0u16; 36];
    values[17] = 9;
    values[18] = 9;
    values
}

#[test]
fn two_triangles_want_two_places(rt: HostRuntime) -> Result<(), Fail> {
    let heap = rt.alloc();
    let block = block(heap, [4, 3, 3], &two_voxels())?;
    let mut trays = [
        with_places(heap, 20)?,
        with_places(heap, 1)?,
        with_places(heap, 2)?,
    ];
    let mut entries = [open(5), draw(0, 10), draw(1, 1), draw(2, 1), draw(2, 0)];
    run(&block, &mut trays, &mut entries);
    let full = Ending::Full {
        triangles: 2,
        free: 1,
    };
    assert_eq!(rt; entries[2].answer, drawn(0, 0, 2, full));
    assert_eq!(rt; entries[3].answer, drawn(1, 2, 1, Ending::Budget));
    let zero = Some(Answer::Drawn(Err(DrawRefusal::ZeroBudget)));
    assert_eq!(rt; entries[4].answer, zero);
    Ok(())
}

// Cubes 0 to 11 lay 1, 2, 1, 1, 2, 1, 1, 2, 1, 1, 2 and 1 triangles. Tray 0 has five places and tray 1 three.
fn in_both_kinds() -> [Entry; 11] {
    [
        open(5),
        draw(0, 100),
        draw(1, 1),
        draw(1, 100),
        entry(Call::Empty { tray: 0 }),
        draw(0, 0),
        entry(Call::Close),
        draw(0, 100),
        entry(Call::Empty { tray: 1 }),
        draw(1, 100),
        entry(Call::Close),
    ]
}

// A draw that ends before a cube with so many triangles, at a full tray.
fn filled(cubes: u32, laid: u32, left: u32, triangles: u32) -> Option<Answer> {
    drawn(cubes, laid, left, Ending::Full { triangles, free: 0 })
}

// What they answer.
fn answers_in_both_kinds() -> [Option<Answer>; 11] {
    [
        Some(Answer::Opened(Ok(()))),
        filled(4, 5, 8, 2),
        drawn(1, 2, 7, Ending::Budget),
        filled(1, 1, 6, 1),
        Some(Answer::Emptied),
        Some(Answer::Drawn(Err(DrawRefusal::ZeroBudget))),
        Some(Answer::Closed(Err(Unfinished))),
        filled(4, 5, 2, 2),
        Some(Answer::Emptied),
        drawn(2, 3, 0, Ending::Done),
        Some(Answer::Closed(Ok(Report {
            cubes: 12,
            triangles: 16,
        }))),
    ]
}

// Sees that a full tray holds so many triangles of a list, from a place on.
fn holds(rt: &impl Abort, tray: &AnyTray, list: &[Triangle], from: usize, many: usize) {
    assert_eq!(rt; (tray.held(), tray.free()), (many, 0));
    for (n, triangle) in list.iter().skip(from).take(many).enumerate() {
        assert_eq!(rt; tray.nth(n), Some(*triangle));
    }
}

#[test]
fn records_and_text_in_one_list(rt: HostRuntime) -> Result<(), Fail> {
    let heap = rt.alloc();
    let block = block(heap, [4, 3, 3], &two_voxels())?;
    let text = TextTray::new(vec![in heap; b'.'; 85]?);
    let mut trays: [AnyTray; 2] = [with_places(heap, 5)?.into(), text.into()];
    let mut entries = in_both_kinds();
    run(&block, &mut trays, &mut entries);
    for (entry, answer) in entries.iter().zip(answers_in_both_kinds()) {
        assert_eq!(rt; entry.answer, answer);
    }
    let mut whole = [with_places(heap, 16)?];
    run(&block, &mut whole, &mut [open(5), draw(0, 100)]);
    let list = whole[0].triangles();
    assert_eq!(rt; list.len(), 16);
    holds(&rt, &trays[0], list, 8, 5);
    holds(&rt, &trays[1], list, 13, 3);
    assert!(rt; matches!(&trays[1], AnyTray::Text(_)));
    Ok(())
}

#[test]
fn earlier_cubes_stand_at_a_fault(rt: HostRuntime) -> Result<(), Fail> {
    let heap = rt.alloc();
    let mut values = two_voxels();
    values[18] = 65_535;
    let block = block(heap, [4, 3, 3], &values)?;
    let mut trays = [with_places(heap, 20)?];
    let mut entries = [open(5), draw(0, 100), entry(Call::Close)];
    run(&block, &mut trays, &mut entries);
    let fault = Fault::own(Cause::NoReading, Voxel { x: 2, y: 1, z: 1 });
    let cube = Voxel { x: 1, y: 0, z: 0 };
    assert_eq!(rt;
        entries[1].answer,
        drawn(1, 1, 11, Ending::Lacking { cube, fault })
    );
    assert_eq!(rt; entries[2].answer, Some(Answer::Closed(Err(Unfinished))));
    Ok(())
}

#[test]
fn closed_drawing_only_reports(rt: HostRuntime) -> Result<(), Fail> {
    let heap = rt.alloc();
    let mut values = [0u16; 27];
    values[13] = 9;
    let block = block(heap, [3, 3, 3], &values)?;
    let mut trays = [with_places(heap, 8)?];
    let empty = entry(Call::Empty { tray: 0 });
    let mut entries = [
        open(5),
        draw(0, 100),
        entry(Call::Close),
        draw(0, 1),
        open(5),
        empty,
    ];
    run(&block, &mut trays, &mut entries);
    assert_eq!(rt; entries[1].answer, drawn(8, 8, 0, Ending::Done));
    let report = Report {
        cubes: 8,
        triangles: 8,
    };
    assert_eq!(rt; entries[2].answer, Some(Answer::Closed(Ok(report))));
    assert_eq!(rt; entries[3].answer, None);
    assert_eq!(rt; entries[4].answer, None);
    assert_eq!(rt; entries[5].answer, Some(Answer::Emptied));
    Ok(())
}
