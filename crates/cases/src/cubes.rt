// Masks, pairs, triangles and joined voxels on examples.
use cube::{Connectedness, CubeTriangle as T, Mask, Pair, triangles};
use graph::{joined, loops};
use std::alloc::AllocError;
use std::array;

// Whether a mask lays just these triangles under a pair.
fn lays(mask: u8, pair: Pair, expected: &[T]) -> bool {
    let patch = triangles(Mask(mask), pair);
    patch.triangles() == expected
}

#[test]
fn worked_cases(rt: HostRuntime) {
    assert!(rt; lays(0, Pair::S18H6, &[]));
    assert!(rt; lays(255, Pair::S6H26, &[]));
    assert!(rt; lays(1, Pair::S18H6, &[T(0, 4, 8)]));
    assert!(rt; lays(3, Pair::S18H6, &[T(4, 8, 5), T(5, 8, 9)]));
    let across = [T(0, 5, 8), T(5, 11, 8), T(1, 8, 11), T(1, 4, 8)];
    assert!(rt; lays(9, Pair::S18H6, &across));
    assert!(rt; lays(9, Pair::S6H18, &[T(0, 4, 8), T(1, 5, 11)]));
    assert!(rt; lays(129, Pair::S18H6, &[T(0, 4, 8), T(3, 11, 7)]));
}

#[test]
fn tube(rt: HostRuntime) {
    let tube = [
        T(0, 4, 11),
        T(3, 4, 8),
        T(0, 7, 8),
        T(3, 11, 4),
        T(0, 11, 7),
        T(3, 8, 7),
    ];
    assert!(rt; lays(129, Pair::S26H6, &tube));
}

#[test]
fn pairs_of_numbers(rt: HostRuntime) {
    assert_eq!(rt; Pair::try_from((18, 6)), Ok(Pair::S18H6));
    assert_eq!(rt; Pair::try_from((6, 26)), Ok(Pair::S6H26));
    for (s, h) in [(6u16, 6u16), (18, 18), (26, 18), (6, 0), (65_535, 6)] {
        assert!(rt; Pair::try_from((s, h)).is_err());
    }
}

#[test]
fn masks_and_their_voxels(rt: HostRuntime) {
    // Masks are the numbers of a byte.
    for bits in 0..=255u8 {
        let m = Mask(bits);
        let voxels = array::from_fn(|voxel| m.is_solid(voxel as u8));
        assert!(rt; Mask::of(voxels) == m);
        assert!(rt; m.exchanged().exchanged() == m);
    }
}

#[test]
fn joined_voxels(rt: HostRuntime) {
    assert!(rt; joined(Mask(9), Connectedness::Eighteen, 0, 3));
    assert!(rt; !joined(Mask(9), Connectedness::Six, 0, 3));
    assert!(rt; joined(Mask(129), Connectedness::TwentySix, 7, 0));
    assert!(rt; !joined(Mask(129), Connectedness::Eighteen, 7, 0));
    assert!(rt; joined(Mask(0b1000_1011), Connectedness::Six, 0, 7));
    assert!(rt; !joined(Mask(1), Connectedness::TwentySix, 1, 1));
    assert!(rt; !joined(Mask(255), Connectedness::TwentySix, 0, 8));
}

#[test]
fn loops_of_masks(rt: HostRuntime) -> Result<(), AllocError> {
    let expected: [(u8, Connectedness, &[&[u8]]); 4] = [
        (0, Connectedness::Six, &[]),
        (1, Connectedness::Eighteen, &[&[0, 4, 8]]),
        (9, Connectedness::Eighteen, &[&[0, 5, 11, 1, 4, 8]]),
        (9, Connectedness::Six, &[&[0, 4, 8], &[1, 5, 11]]),
    ];
    for (mask, s, all) in expected {
        let found = loops(rt.alloc(), Mask(mask), s)?;
        assert_eq!(rt; found.len(), all.len());
        for (corners, wanted) in found.iter().zip(all) {
            assert_eq!(rt; corners.as_slice(), *wanted);
        }
    }
    Ok(())
}
