// Drawing a scan that is open until no cube is left or one lacks a reading.
ghost use Rattle.std.specs.Prelude.{◌≡◌, IfOk};
ghost use Rattle.listing.specs.Steps.{DrawnOut, Filled, Ready};
ghost use Rattle.tray.specs.Buffers.{text_holds};

use drawing::{Drawing, Ending};
use scan::{Fault, Scan};
use std::alloc::AllocError;
use tray::{TextTray, Tray};

// Draws as many cubes as the empty tray has places for, writes their triangles to the end of the output, empties the tray
// again, and answers how the draw ended.
fn fill<S: Scan>(
    scan: &S,
    drawing: &mut Drawing,
    tray: &mut TextTray,
    output: &mut Vec<u8>,
) -> Result<Ending, AllocError>
    requires sides { drawing.old.sides ≡ (S.Scan.means scan.now).sides }
    requires ready { Ready (text_holds tray.old) }
    ensures filled { IfOk result (λ e. Filled (S.Scan.means scan.now) drawing.old drawing.new e output.old.items output.new.items) }
    ensures ready { IfOk result (λ _. Ready (text_holds tray.new)) }
{
    let progress = drawing.draw(scan, tray, u32::MAX).unwrap();
    output.extend_from_slice(tray.text())?;
    tray.empty();
    Ok(progress.ending)
}

// Draws on, writing out the tray as often as it is full, and answers the fault of the first cube that lacks a reading; none
// where all cubes are drawn.
pub(crate) fn draw_out<S: Scan>(
    scan: &S,
    drawing: &mut Drawing,
    tray: &mut TextTray,
    output: &mut Vec<u8>,
) -> Result<Option<Fault>, AllocError>
    requires sides { drawing.old.sides ≡ (S.Scan.means scan.now).sides }
    requires ready { Ready (text_holds tray.old) }
    ensures { IfOk result (λ fault. DrawnOut (S.Scan.means scan.now) drawing.old drawing.new fault output.old.items output.new.items) }
{
    loop {
        match fill(scan, drawing, tray, output)? {
            Ending::Done => return Ok(None),
            Ending::Lacking { fault, .. } => return Ok(Some(fault)),
            Ending::Budget | Ending::Full { .. } => {}
        }
    }
}
