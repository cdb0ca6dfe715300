// Drawing into text: the line of each triangle.
ghost use Rattle.exported.specs.Drawings.{Draws, TextTold};
ghost use Rattle.tray.specs.Texts.{text_of};

use crate::asking::Asking;
use crate::drawing_on::draw_on;
use crate::opening::{Opened, start};
use crate::refusal::Refusal;
use crate::told::Told;
use std::alloc::Global;
use tray::TextTray;

// Draws the readings into a tray over as many bytes as are lent, and hands the text over. Refused as `start` refuses, and
// over memory; the text then stays as it was.
fn draw_text(
    heap: Global,
    asking: &Asking,
    readings: &[u16],
    text: &mut [u8],
) -> Result<Told, Refusal>
    ensures { Draws 27 text_of asking.now readings.now text.old result text.new }
{
    let Opened { block, mut drawing } = start(heap, asking, readings)?;
    let mut tray = TextTray::new(Vec::from_elem(heap, 0u8, text.len())?);
    let told = draw_on(&block, &mut drawing, &mut tray, asking.budget);
    let written = tray.text();
    text[..written.len()].copy_from_slice(written);
    Ok(told)
}

// Draws the readings by draws of the budget, and writes the lines of the triangles over the front of the text. A refusal is told
// by its number, and changes nothing that was lent.
#[unsafe(no_mangle)]
pub extern "C" fn exported_text(
    heap: Global,
    asking: &Asking,
    readings: &[u16],
    text: &mut [u8],
) -> Told
    ensures { TextTold asking.now readings.now text.old result text.new }
{
    match draw_text(heap, asking, readings, text) {
        Ok(told) => told,
        Err(refusal) => refusal.into(),
    }
}
