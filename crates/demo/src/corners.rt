// Where the corners of a small shell lie.
use crate::trays::with_places;
use corner::{Place, Point, place};
use drawing::{Asked, Drawing, Letter, SolidTest};
use scan::Block;
use std::alloc::{AllocError, Global};
use tray::RecordTray;

// Draws the shell, places each corner of its triangles, and asks for two links that carry none.
pub(crate) fn show(rt: &HostRuntime) -> anyhow::Result<()> {
    println!(rt; "A shell around one voxel at threshold 5, 50 micrometres from voxel to voxel")?;
    let block = shell(rt.alloc())?;
    let mut drawing = Drawing::open(&block, asked())?;
    let pair = drawing.pair();
    let mut tray = with_places(rt.alloc(), 8)?;
    let progress = drawing.draw(&block, &mut tray, 8)?;
    println!(rt; "  drawn under {pair}: {progress}")?;
    for link in corners(rt.alloc(), &tray)?.iter() {
        show_place(rt, &drawing, &block, *link)?;
    }
    for link in [0, 81] {
        show_place(rt, &drawing, &block, link)?;
    }
    Ok(())
}

// A block of 3 x 3 x 3 voxels that reads 9 in the middle and 0 to 4 around it.
fn shell(heap: Global) -> anyhow::Result<Block> {
    let values = vec![in heap;
        0, 0, 0, 0, 0, 0, 0, 0, 0, 0, 3, 0, 1, 9, 2, 0, 4, 0, 0, 0, 0, 0, 0, 0, 0, 0, 0,
    ]?;
    Ok(Block::new([3; 3].into(), [50; 3].into(), values)?)
}

// The opening of the shell.
fn asked() -> Asked {
    let test = SolidTest {
        threshold: 5,
        letter: Letter::H,
    };
    Asked { test, s: 18, h: 6 }
}

// The corners of the triangles that a tray holds, each once, by their links in ascending order.
fn corners(heap: Global, tray: &RecordTray) -> Result<Vec<u32>, AllocError> {
    let mut links = Vec::new(heap);
    for t in tray.triangles() {
        links.extend_from_slice(&[t.first(), t.second(), t.third()])?;
    }
    links.sort_unstable();
    links.dedup();
    Ok(links)
}

// The place and the point of the corner on a link, or why it has none.
fn show_place(rt: &HostRuntime, drawing: &Drawing, block: &Block, link: u32) -> anyhow::Result<()> {
    match place(drawing, block, link) {
        Ok(corner) => {
            let (axis, fraction) = along(corner.place);
            let Point { x, y, z } = corner.point;
            println!(rt; "  link {link}: {fraction} of the way along {axis}, at ({x},{y},{z})")?;
        }
        Err(refusal) => println!(rt; "  link {link}: {refusal}")?,
    }
    Ok(())
}

// The axis of a place, and how far along it lies.
fn along(place: Place) -> (&'static str, f32) {
    match place {
        Place::X(fraction) => ("x", fraction),
        Place::Y(fraction) => ("y", fraction),
        Place::Z(fraction) => ("z", fraction),
    }
}
