// Small blocks opened and refused, and the masks of their cubes.
use crate::block::block;
use drawing::{Asked, Drawing, Ending, Letter, OpenRefusal, SolidTest, cube_mask};
use grid::Voxel;
use scan::{Block, Cause, Fault, Lacking};
use std::alloc::Global;
use std::test::Fail;

// The refusal's number at opening a block under H and (18,6); none where it is opened.
fn refused(block: &Block, threshold: u16) -> Option<u8> {
    let test = SolidTest {
        threshold,
        letter: Letter::H,
    };
    let asked = Asked { test, s: 18, h: 6 };
    Drawing::open(block, asked).err().map(u8::from)
}

#[test]
fn first_refusal_that_applies(rt: HostRuntime) -> Result<(), Fail> {
    let heap = rt.alloc();
    let thin = block(heap, [1, 2, 2], &[0, 0, 0, 9])?;
    assert_eq!(rt; refused(&thin, 0), Some(4));
    let mixed = block(heap, [2, 2, 2], &[9, 0, 0, 0, 0, 0, 0, 0])?;
    assert_eq!(rt; refused(&mixed, 0), Some(5));
    assert_eq!(rt; refused(&mixed, 5), Some(8));
    let lacking = block(heap, [2, 2, 2], &[9, 0, 0, 0, 0, 0, 0, 65_535])?;
    assert_eq!(rt; refused(&lacking, 5), Some(7));
    for values in [[0; 8], [9; 8]] {
        assert_eq!(rt; refused(&block(heap, [2, 2, 2], &values)?, 5), None);
    }
    Ok(())
}

// The mask of a cube of a block of 3 x 3 x 3 values under H at 5.
fn mask_of(heap: Global, values: &[u16], number: u32) -> Result<Option<Result<u8, Lacking>>, Fail> {
    let test = SolidTest {
        threshold: 5,
        letter: Letter::H,
    };
    let mask = cube_mask(&block(heap, [3, 3, 3], values)?, test, number);
    Ok(mask.map(|found| found.map(|mask| mask.0)))
}

#[test]
fn masks_of_cubes(rt: HostRuntime) -> Result<(), Fail> {
    let heap = rt.alloc();
    let mut values = [0u16; 27];
    values[13] = 9;
    assert_eq!(rt; mask_of(heap, &values, 0)?, Some(Ok(128)));
    assert_eq!(rt; mask_of(heap, &values, 1)?, Some(Ok(64)));
    assert_eq!(rt; mask_of(heap, &values, 7)?, Some(Ok(1)));
    // There are eight cubes.
    for past in [8, 12, 4_294_967_295] {
        assert_eq!(rt; mask_of(heap, &values, past)?, None);
    }
    values[13] = 65_535;
    let voxel = Voxel { x: 1, y: 1, z: 1 };
    let fault = Fault::own(Cause::NoReading, voxel);
    assert_eq!(rt;
        mask_of(heap, &values, 3)?,
        Some(Err(Lacking { voxel, fault }))
    );
    Ok(())
}

#[test]
fn lacking_inside_is_no_refusal(rt: HostRuntime) -> Result<(), Fail> {
    let heap = rt.alloc();
    let mut values = [0u16; 27];
    values[13] = 65_535;
    assert_eq!(rt; refused(&block(heap, [3, 3, 3], &values)?, 5), None);
    values[14] = 65_535;
    assert_eq!(rt; refused(&block(heap, [3, 3, 3], &values)?, 5), Some(7));
    Ok(())
}

// What the demo does not print.
#[test]
fn printed_refusals(rt: HostRuntime) -> Result<(), Fail> {
    let heap = rt.alloc();
    let voxel = Voxel { x: 1, y: 2, z: 3 };
    let fault = Fault::own(Cause::NoReading, voxel);
    let lacking = OpenRefusal::Lacking { voxel, fault };
    assert_eq!(rt;
        format!(in heap; "{lacking}")?.as_str(),
        "refused with 7, no reading at (1,2,3)"
    );
    let stopped = Ending::Lacking { cube: voxel, fault };
    assert_eq!(rt;
        format!(in heap; "{stopped}")?.as_str(),
        "stopped with 11, no reading in the cube at (1,2,3)"
    );
    let test = SolidTest {
        threshold: 5,
        letter: Letter::H,
    };
    let small = block(heap, [2, 2, 2], &[0; 8])?;
    let open = Drawing::open(&small, Asked { test, s: 18, h: 6 })?;
    let left = open.close().err();
    assert!(rt; left.is_some());
    if let Some(left) = left {
        assert_eq!(rt;
            format!(in heap; "{left}")?.as_str(),
            "refused with 13, cubes are left"
        );
    }
    Ok(())
}
