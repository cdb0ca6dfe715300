// The surface inside one cube, under each of the four pairs.
use cube::{Connectedness, Mask, Pair};
use std::array;

// The four pairs.
const PAIRS: [Pair; 4] = [Pair::S18H6, Pair::S26H6, Pair::S6H18, Pair::S6H26];

// Two galleries in one cube, then all cubes.
pub(crate) fn show(rt: &HostRuntime) -> anyhow::Result<()> {
    println!(rt; "Two galleries that pass across a face: mask 9")?;
    show_mask(rt, Mask(9))?;
    println!(rt; "Two galleries that pass across the cube: mask 129")?;
    show_mask(rt, Mask(129))?;
    println!(rt; "All 256 masks")?;
    for pair in PAIRS {
        show_totals(rt, pair)?;
    }
    Ok(())
}

// The voxels of a mask, and what each pair makes of them.
fn show_mask(rt: &HostRuntime, mask: Mask) -> anyhow::Result<()> {
    print!(rt; "  solid voxels:")?;
    for voxel in (0..8u8).filter(|voxel| mask.is_solid(*voxel)) {
        print!(rt; " {voxel}")?;
    }
    println!(rt; "")?;
    for pair in PAIRS {
        show_pair(rt, mask, pair)?;
    }
    Ok(())
}

// The loops, the triangles and the joined voxels of a mask under one pair.
fn show_pair(rt: &HostRuntime, mask: Mask, pair: Pair) -> anyhow::Result<()> {
    println!(rt; "  under {pair}")?;
    show_loops(rt, mask, pair.solid())?;
    show_triangles(rt, mask, pair)?;
    print!(rt; "    solid joined: ")?;
    show_groups(rt, mask, pair.solid())?;
    print!(rt; "    hollow joined:")?;
    show_groups(rt, mask.exchanged(), pair.hollow())
}

// The loops, each from its lowest link. A mask and its connectedness go side by side, as the calls of graph take them.
fn show_loops(rt: &HostRuntime, mask: Mask, s: Connectedness) -> anyhow::Result<()> {
    print!(rt; "    loops:")?;
    let loops = graph::loops(rt.alloc(), mask, s)?;
    for corners in loops.iter() {
        show_loop(rt, corners.as_slice())?;
    }
    println!(rt; "")?;
    Ok(())
}

// One loop, its links joined by dashes.
fn show_loop(rt: &HostRuntime, corners: &[u8]) -> anyhow::Result<()> {
    if let [lowest, rest @ ..] = corners {
        print!(rt; " {lowest}")?;
        for corner in rest {
            print!(rt; "-{corner}")?;
        }
    }
    Ok(())
}

// The triangles, in the order in which they are laid.
fn show_triangles(rt: &HostRuntime, mask: Mask, pair: Pair) -> anyhow::Result<()> {
    print!(rt; "    triangles:")?;
    for triangle in cube::triangles(mask, pair).triangles() {
        print!(rt; " {triangle}")?;
    }
    println!(rt; "")?;
    Ok(())
}

// The solid voxels of a mask, those that are joined within one pair of braces.
fn show_groups(rt: &HostRuntime, mask: Mask, c: Connectedness) -> anyhow::Result<()> {
    for first in (0..8u8).filter(|first| mask.is_solid(*first) && begins_group(mask, c, *first)) {
        show_group(rt, mask, c, first)?;
    }
    println!(rt; "")?;
    Ok(())
}

// The voxels that are joined to this one, in braces.
fn show_group(rt: &HostRuntime, mask: Mask, c: Connectedness, first: u8) -> anyhow::Result<()> {
    print!(rt; " {{")?;
    for voxel in (0..8u8).filter(|voxel| graph::joined(mask, c, first, *voxel)) {
        print!(rt; " {voxel}")?;
    }
    print!(rt; " }}")?;
    Ok(())
}

// Whether no lower voxel is joined to this one.
fn begins_group(mask: Mask, c: Connectedness, first: u8) -> bool {
    (0..first).all(|voxel| !graph::joined(mask, c, first, voxel))
}

// How many triangles all masks have together under a pair, and at most.
fn show_totals(rt: &HostRuntime, pair: Pair) -> anyhow::Result<()> {
    let counts: [usize; 256] = array::from_fn(|bits| cube::triangles(Mask(bits as u8), pair)
        .triangles()
        .len());
    let total = counts
        .iter()
        .fold(0usize, |sum, count| sum.saturating_add(*count));
    let most = counts.iter().copied().max().unwrap_or(0);
    let empty = counts.iter().filter(|count| **count == 0).count();
    println!(rt; "  under {pair}: {total} triangles, at most {most} in a cube, none in {empty}")?;
    Ok(())
}
