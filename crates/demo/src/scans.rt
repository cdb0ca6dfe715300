// The housing as a phantom, a cut-out of it, and a block that lacks a reading.
use crate::housing;
use grid::Voxel;
use scan::{Block, Cutout, Lengths, Phantom, Scan, lowest_lacking};
use std::alloc::{AllocError, Global};

// Makes the scans one after the other, and asks each of them.
pub(crate) fn show(rt: &HostRuntime) -> anyhow::Result<()> {
    println!(rt;
        "A housing of 6 x 7 x 7 voxels with two galleries that pass one voxel apart and touch across an edge"
    )?;
    show_phantom(rt, &housing::phantom(rt.alloc(), 7)?)?;
    println!(rt; "The same with a side of 257")?;
    match housing::phantom(rt.alloc(), 257) {
        Ok(_) => println!(rt; "  made")?,
        Err(refusal) => println!(rt; "  {refusal}")?,
    }
    println!(rt; "A block of 2 x 2 x 2 voxels that lacks the reading of voxel 5")?;
    match Block::new(all(2), all(1), readings(rt.alloc())?) {
        Ok(block) => show_block(rt, &block)?,
        Err(refusal) => println!(rt; "  {refusal}")?,
    }
    Ok(())
}

// The same length along each axis.
fn all(n: u32) -> Lengths {
    [n; 3].into()
}

// Readings 10 to 17 of a small block, but for the sixth.
fn readings(heap: Global) -> Result<Vec<u16>, AllocError> {
    Ok(vec![in heap; 10, 11, 12, 13, 14, 65_535, 16, 17]?)
}

// The housing where there is metal, in each gallery, outside and past its end; and a cut-out of its upper half.
fn show_phantom(rt: &HostRuntime, phantom: &Phantom) -> anyhow::Result<()> {
    for at in [[1, 1, 1], [2, 2, 2], [2, 3, 4], [0, 0, 0], [6, 0, 0]] {
        ask(rt, phantom, at.into())?;
    }
    println!(rt; "  a cut-out of it from (2,2,4), 9 voxels along each axis")?;
    let cut = Cutout::new(phantom, [2, 2, 4].into(), all(9));
    let sides = cut.sides();
    println!(rt; "  sides: {sides}")?;
    for at in [[0, 0, 0], [1, 0, 0], [4, 0, 0]] {
        ask(rt, &cut, at.into())?;
    }
    Ok(())
}

// The block, a cut-out of it, and its border.
fn show_block(rt: &HostRuntime, block: &Block) -> anyhow::Result<()> {
    let bare = Voxel::from([1, 0, 1]);
    ask(rt, block, [0, 0, 1].into())?;
    ask(rt, block, bare)?;
    let cut = Cutout::new(block, bare, all(1));
    println!(rt; "  a cut-out of that voxel alone")?;
    ask(rt, &cut, [0, 0, 0].into())?;
    match lowest_lacking(block) {
        Some(lacking) => {
            let voxel = lacking.voxel;
            println!(rt; "  lowest voxel on the border without a reading: {voxel}")?;
        }
        None => println!(rt; "  every voxel on the border has a reading")?,
    }
    Ok(())
}

// What a scan answers at a place.
fn ask<S: Scan>(rt: &HostRuntime, scan: &S, at: Voxel) -> anyhow::Result<()> {
    match scan.read(at) {
        Ok(reading) => println!(rt; "  at {at}: reading {reading}")?,
        Err(fault) => println!(rt; "  at {at}: {fault}")?,
    }
    Ok(())
}
