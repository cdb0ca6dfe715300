// Small scans of each kind, asked inside, on the rim and outside.
use grid::{Axis, Voxel};
use scan::{
    Block, Cause, Cutout, Fault, MeasuredScan, Phantom, Refusal, Scan, Shape, lowest_lacking,
};
use std::alloc::{AllocError, Global};
use std::test::Fail;

fn fault(cause: Cause, at: Voxel, passed: u8) -> Result<u16, Fault> {
    Err(Fault { cause, at, passed })
}

#[test]
fn a_fault_counts_the_scans_up_to_255(rt: HostRuntime) {
    for (passed, after) in [(0, 1), (1, 2), (254, 255), (255, 255)] {
        let up = Fault {
            cause: Cause::NoReading,
            at: Voxel::from([3, 2, 1]),
            passed,
        }
        .pass_up();
        assert_eq!(rt;
            up,
            Fault {
                cause: Cause::NoReading,
                at: Voxel::from([3, 2, 1]),
                passed: after,
            }
        );
    }
}

#[test]
fn a_block_reads_in_voxel_order(rt: HostRuntime) -> Result<(), Fail> {
    let values = vec![in rt.alloc(); 10, 11, 12, 13, 14, 15, 16, 65_535, 65_534, 19, 20, 21]?;
    let block = Block::new([2, 3, 2].into(), [1, 10_000, 7].into(), values)?;
    let table = [
        (Voxel::from([0, 0, 0]), Ok(10)),
        (Voxel::from([1, 0, 0]), Ok(11)),
        (Voxel::from([0, 1, 0]), Ok(12)),
        (Voxel::from([0, 0, 1]), Ok(16)),
        (
            Voxel::from([1, 0, 1]),
            fault(Cause::NoReading, Voxel::from([1, 0, 1]), 0),
        ),
        (Voxel::from([0, 1, 1]), Ok(65_534)),
        (Voxel::from([1, 2, 1]), Ok(21)),
        (
            Voxel::from([2, 0, 0]),
            fault(Cause::Outside, Voxel::from([2, 0, 0]), 0),
        ),
        (
            Voxel::from([0, 3, 0]),
            fault(Cause::Outside, Voxel::from([0, 3, 0]), 0),
        ),
        (
            Voxel::from([4_294_967_295, 0, 0]),
            fault(Cause::Outside, Voxel::from([4_294_967_295, 0, 0]), 0),
        ),
    ];
    for (at, answer) in table {
        assert_eq!(rt; block.read(at), answer);
    }
    assert_eq!(rt; block.spacing().along(Axis::Y), 10_000);
    Ok(())
}

// The number of a refusal; none for what was made.
fn refusal<T: Drop>(made: Result<T, Refusal>) -> Option<u8> {
    made.err().map(u8::from)
}

#[test]
fn the_first_refusal_is_told(rt: HostRuntime) -> Result<(), Fail> {
    let blocks = [
        ([1, 1, 256].into(), [1, 1, 1].into(), 256, None),
        ([1, 1, 257].into(), [1, 1, 1].into(), 257, Some(1)),
        ([0, 1, 1].into(), [1, 1, 1].into(), 0, Some(1)),
        ([2, 2, 2].into(), [0, 1, 1].into(), 7, Some(1)),
        ([2, 2, 2].into(), [1, 1, 0].into(), 8, Some(2)),
        ([2, 2, 2].into(), [1, 10_001, 1].into(), 8, Some(2)),
    ];
    for (sides, spacing, count, told) in blocks {
        let values = vec![in rt.alloc(); 0; count]?;
        assert_eq!(rt; refusal(Block::new(sides, spacing, values)), told);
    }
    let phantoms = [
        ([1, 1, 1].into(), [1, 1, 1].into(), 255, 65_534, 64, None),
        ([257, 1, 1].into(), [0, 1, 1].into(), 255, 1, 65, Some(1)),
        ([1, 1, 1].into(), [0, 1, 1].into(), 255, 1, 65, Some(2)),
        ([1, 1, 1].into(), [1, 1, 1].into(), 255, 1, 65, Some(3)),
        ([1, 1, 1].into(), [1, 1, 1].into(), 256, 1, 1, Some(3)),
        ([1, 1, 1].into(), [1, 1, 1].into(), 255, 65_535, 1, Some(3)),
    ];
    for (sides, spacing, high, value, count, told) in phantoms {
        let shape = Shape {
            low: Voxel::from([0, 0, 0]),
            high: Voxel::from([0, high, 0]),
            value,
        };
        let shapes = vec![in rt.alloc(); shape; count]?;
        assert_eq!(rt; refusal(Phantom::new(sides, spacing, shapes)), told);
    }
    Ok(())
}

// A block of 5, 4 and 3 voxels with a bore along x, and a shape that holds nothing.
fn bored(heap: Global) -> Result<Vec<Shape>, AllocError> {
    let none = Shape {
        low: Voxel::from([3, 0, 0]),
        high: Voxel::from([0, 3, 2]),
        value: 7,
    };
    let bore = Shape {
        low: Voxel::from([0, 1, 1]),
        high: Voxel::from([4, 1, 1]),
        value: 0,
    };
    let body = Shape {
        low: Voxel::from([1, 0, 0]),
        high: Voxel::from([4, 3, 2]),
        value: 900,
    };
    Ok(vec![in heap; none, bore, body]?)
}

#[test]
fn a_phantom_reads_its_first_shape(rt: HostRuntime) -> Result<(), Fail> {
    let phantom = Phantom::new([5, 4, 3].into(), [2, 2, 2].into(), bored(rt.alloc())?)?;
    let table = [
        (Voxel::from([0, 0, 0]), Ok(0)),
        (Voxel::from([1, 0, 0]), Ok(900)),
        (Voxel::from([4, 3, 2]), Ok(900)),
        (Voxel::from([2, 1, 1]), Ok(0)),
        (Voxel::from([2, 2, 1]), Ok(900)),
        (
            Voxel::from([5, 3, 2]),
            fault(Cause::Outside, Voxel::from([5, 3, 2]), 0),
        ),
    ];
    for (at, answer) in table {
        assert_eq!(rt; phantom.read(at), answer);
    }
    assert_eq!(rt; lowest_lacking(&phantom).is_none(), true);
    Ok(())
}

#[test]
fn a_cut_out_shows_a_box(rt: HostRuntime) -> Result<(), Fail> {
    let mut values = vec![in rt.alloc(); 5; 60]?;
    assert!(rt; values.len() == 60);
    values[33] = 65_535;
    values[59] = 6;
    let block = Block::new([5, 4, 3].into(), [3, 2, 1].into(), values)?;
    let part = Cutout::new(&block, Voxel::from([2, 1, 1]), [2, 9, 0].into());
    assert_eq!(rt; part.sides().x(), 2);
    assert_eq!(rt; part.sides().y(), 3);
    assert_eq!(rt; part.sides().z(), 1);
    assert_eq!(rt;
        part.read(Voxel::from([1, 1, 0])),
        fault(Cause::NoReading, Voxel::from([3, 2, 1]), 1)
    );
    assert_eq!(rt;
        part.read(Voxel::from([0, 0, 1])),
        fault(Cause::Outside, Voxel::from([0, 0, 1]), 0)
    );
    assert_eq!(rt; part.spacing().along(Axis::X), 3);
    let within = Cutout::new(part, Voxel::from([1, 1, 7]), [1, 1, 1].into());
    assert_eq!(rt;
        within.read(Voxel::from([0, 0, 0])),
        fault(Cause::NoReading, Voxel::from([3, 2, 1]), 2)
    );
    let last = Cutout::new(&block, Voxel::from([9, 9, 9]), [4, 4, 4].into());
    assert_eq!(rt; last.sides().x(), 1);
    assert_eq!(rt; last.read(Voxel::from([0, 0, 0])), Ok(6));
    Ok(())
}

#[test]
fn the_lowest_border_voxel_without_a_reading(rt: HostRuntime) -> Result<(), Fail> {
    let table = [(13, None), (14, Some(14)), (0, Some(0)), (26, Some(26))];
    for (bare, told) in table {
        let mut values = vec![in rt.alloc(); 5; 27]?;
        assert!(rt; bare < values.len());
        values[bare] = 65_535;
        let block = Block::new([3, 3, 3].into(), [1, 1, 1].into(), values)?;
        let found = lowest_lacking(&block).and_then(|lacking| block
            .sides()
            .voxel_number(lacking.fault.at));
        assert_eq!(rt; found, told);
    }
    Ok(())
}
