// Drawing into numbers: the three corners of each triangle.
ghost use Rattle.std.specs.Prelude.{◌≡◌, ◌*◌, ◌++◌, ◌≤◌, length, drop};
ghost use Rattle.exported.specs.Drawings.{Draws, NumbersTold, numbers_of};

use crate::asking::Asking;
use crate::drawing_on::draw_on;
use crate::opening::{Opened, start};
use crate::refusal::Refusal;
use crate::told::Told;
use std::alloc::Global;
use tray::{RecordTray, Triangle};

// The numbers of a triangle.
const CORNERS: usize = 3;

// Writes the corners of the triangles over the front of the numbers.
fn hand_over(triangles: &[Triangle], numbers: &mut [u32])
    requires { 3 * length triangles.now ≤ length numbers.old }
    ensures { numbers.new ≡ numbers_of triangles.now ++ drop (3 * length triangles.now) numbers.old }
{
    for (n, triangle) in triangles.iter().enumerate() {
        let start = CORNERS * n;
        let corners = [triangle.first(), triangle.second(), triangle.third()];
        numbers[start..start + CORNERS].copy_from_slice(&corners);
    }
}

// Draws the readings into a tray with as many places as the numbers have, and hands the triangles over. Refused as `start`
// refuses, and over memory; the numbers then stay as they were.
fn draw_records(
    heap: Global,
    asking: &Asking,
    readings: &[u16],
    numbers: &mut [u32],
) -> Result<Told, Refusal>
    ensures { Draws 3 numbers_of asking.now readings.now numbers.old result numbers.new }
{
    let Opened { block, mut drawing } = start(heap, asking, readings)?;
    let blank = Triangle::new(0, 1, 2).unwrap();
    let mut tray = RecordTray::new(vec![in heap; blank; numbers.len() / CORNERS]?);
    let told = draw_on(&block, &mut drawing, &mut tray, asking.budget);
    hand_over(tray.triangles(), numbers);
    Ok(told)
}

// Draws the readings by draws of the budget, and writes the corners of the triangles over the front of the numbers. A refusal is
// told by its number, and changes nothing that was lent.
#[unsafe(no_mangle)]
pub extern "C" fn exported_records(
    heap: Global,
    asking: &Asking,
    readings: &[u16],
    numbers: &mut [u32],
) -> Told
    ensures { NumbersTold asking.now readings.now numbers.old result numbers.new }
{
    match draw_records(heap, asking, readings, numbers) {
        Ok(told) => told,
        Err(refusal) => refusal.into(),
    }
}
