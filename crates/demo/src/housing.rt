// A housing with two galleries that pass one voxel apart, and at another place touch only across an edge.
use anyhow::Context;
use cube::{Mask, Pair};
use drawing::{Asked, Letter, SolidTest, cube_mask};
use scan::{Phantom, Scan, Shape};
use std::alloc::{AllocError, Global};

// Metal reads 1000, and whatever is not metal 0.
pub(crate) fn test(letter: Letter) -> SolidTest {
    SolidTest {
        threshold: 500,
        letter,
    }
}

// The opening of the housing under a letter and a pair.
pub(crate) fn asked(letter: Letter, pair: Pair) -> Asked {
    let (s, h) = pair.into();
    Asked {
        test: test(letter),
        s,
        h,
    }
}

// The housing as far up as that many voxels, 50 micrometres apart; 7 show the whole.
pub(crate) fn phantom(heap: Global, height: u32) -> anyhow::Result<Phantom> {
    let lengths = [6, 7, height].into();
    Ok(Phantom::new(lengths, [50; 3].into(), shapes(heap)?)?)
}

// A gallery along x through the housing with a side arm, one across it that is closed all around, and the solid around both.
fn shapes(heap: Global) -> Result<Vec<Shape>, AllocError> {
    Ok(vec![in heap;
        Shape::new([1, 2, 2].into(), [4, 2, 2].into(), 0),
        Shape::new([3, 2, 2].into(), [3, 4, 2].into(), 0),
        Shape::new([2, 2, 4].into(), [2, 4, 4].into(), 0),
        Shape::new([2, 4, 3].into(), [2, 4, 3].into(), 0),
        Shape::new([1, 1, 1].into(), [4, 5, 5].into(), 1000),
    ]?)
}

// What a pair makes of the cube where the galleries touch.
pub(crate) fn show_touching(rt: &HostRuntime, phantom: &Phantom, pair: Pair) -> anyhow::Result<()> {
    let mask = touching(phantom).context("no cube there")?;
    let count = cube::triangles(mask, pair).triangles().len();
    print!(rt; "  {count} triangles in the cube where they touch, ")?;
    if graph::joined(mask.exchanged(), pair.hollow(), 1, 4) {
        println!(rt; "the galleries are joined")?;
    } else {
        println!(rt; "the galleries stay apart")?;
    }
    Ok(())
}

// The mask of the cube in which voxel 1 lies in the one gallery and voxel 4 in the other.
fn touching(phantom: &Phantom) -> Option<Mask> {
    let number = phantom.sides().cube_number([2, 4, 2].into())?;
    cube_mask(phantom, test(Letter::H), number)?.ok()
}
