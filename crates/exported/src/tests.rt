// What the exports tell, by number: each refusal, an opening, and a small scan drawn into numbers and into text.
use crate::asking::Asking;
use crate::opening::exported_open;
use crate::records::exported_records;
use crate::text::exported_text;
use std::alloc::{AllocError, Global};
use std::test::Fail;

// A scan of 3 x 3 x 3 voxels under H at 5 and (18,6), drawn one cube at a time.
const ASKING: Asking = Asking {
    x: 3,
    y: 3,
    z: 3,
    budget: 1,
    threshold: 5,
    s: 18,
    h: 6,
    below: false,
};

// The same with the numbers of no pair, and a budget of 0.
const NO_PAIR: Asking = Asking {
    s: 6,
    budget: 0,
    ..ASKING
};

// Readings of 0, but for one in the middle and one in the last corner.
fn readings(middle: u16, last: u16) -> [u16; 27] {
    let mut readings = [0; 27];
    readings[13] = middle;
    readings[26] = last;
    readings
}

#[test]
fn openings_are_told_by_number(rt: HostRuntime) -> Result<(), Fail> {
    let heap = rt.alloc();
    let sides = |x, y, z| Asking { x, y, z, ..ASKING };
    let threshold = |threshold| Asking {
        threshold,
        ..ASKING
    };
    assert_eq!(rt; exported_open(heap, &ASKING, &readings(9, 0)), 0);
    assert_eq!(rt; exported_open(heap, &ASKING, &[0; 26]), 1);
    assert_eq!(rt; exported_open(heap, &sides(0, 3, 3), &readings(9, 0)), 1);
    assert_eq!(rt; exported_open(heap, &sides(1, 27, 1), &readings(9, 0)), 4);
    assert_eq!(rt; exported_open(heap, &threshold(0), &readings(9, 0)), 5);
    assert_eq!(rt; exported_open(heap, &NO_PAIR, &readings(9, 0)), 6);
    assert_eq!(rt; exported_open(heap, &ASKING, &readings(9, 65_535)), 7);
    assert_eq!(rt; exported_open(heap, &ASKING, &readings(9, 9)), 8);
    Ok(())
}

// What drawing into room for so many triangles tells: the refusal or ending, the cubes, the draws and the triangles; text tells
// the same.
fn drawn(
    heap: Global,
    asking: &Asking,
    readings: &[u16],
    places: u8,
) -> Result<[u64; 4], AllocError> {
    let places = usize::from(places);
    let mut numbers = vec![in heap; 7u32; 3 * places]?;
    let told = exported_records(heap, asking, readings, numbers.as_mut_slice());
    let mut text = vec![in heap; 7u8; 27 * places]?;
    let same = exported_text(heap, asking, readings, text.as_mut_slice());
    if same.refusal != told.refusal
        || same.cubes != told.cubes
        || same.triangles != told.triangles
    {
        return Ok([99; 4]);
    }
    Ok([
        told.refusal.into(),
        told.cubes.into(),
        told.draws.into(),
        told.triangles as u64,
    ])
}

#[test]
fn drawings_are_told_by_number(rt: HostRuntime) -> Result<(), Fail> {
    let heap = rt.alloc();
    let by = |budget| Asking { budget, ..ASKING };
    assert_eq!(rt; drawn(heap, &by(1), &readings(9, 0), 8)?, [0, 8, 8, 8]);
    assert_eq!(rt; drawn(heap, &by(100), &readings(9, 0), 8)?, [0, 8, 1, 8]);
    assert_eq!(rt; drawn(heap, &by(1), &readings(9, 0), 3)?, [12, 3, 4, 3]);
    assert_eq!(rt;
        drawn(heap, &by(1), &readings(65_535, 0), 8)?,
        [11, 0, 1, 0]
    );
    assert_eq!(rt; drawn(heap, &by(1), &readings(9, 9), 8)?, [8, 0, 0, 0]);
    assert_eq!(rt; drawn(heap, &by(0), &readings(9, 0), 8)?, [10, 0, 0, 0]);
    assert_eq!(rt; drawn(heap, &by(0), &readings(9, 9), 8)?, [10, 0, 0, 0]);
    assert_eq!(rt; drawn(heap, &NO_PAIR, &readings(9, 0), 8)?, [6, 0, 0, 0]);
    Ok(())
}

#[test]
fn first_triangle_in_numbers_and_in_text(rt: HostRuntime) -> Result<(), Fail> {
    let heap = rt.alloc();
    let mut numbers = [7; 26];
    exported_records(heap, &ASKING, &readings(9, 0), &mut numbers);
    assert!(rt; numbers.starts_with(&[36, 14, 31]));
    assert!(rt; numbers.ends_with(&[7, 7]));
    let mut text = [b'.'; 220];
    exported_text(heap, &ASKING, &readings(9, 0), &mut text);
    assert!(rt; text.starts_with(b"00000036,00000014,00000031\n"));
    assert!(rt; text.ends_with(b"...."));
    Ok(())
}
