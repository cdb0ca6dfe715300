// The output with its last line.
ghost use Rattle.std.specs.Prelude.{◌≡◌, ◌++◌, ◌<◌, IfOk};
ghost use Rattle.grid.specs.Cubes.{cube_count};
ghost use Rattle.grid.specs.Voxels.{Holds, number_of};
ghost use Rattle.listing.specs.ClosingLines.{end_text, refusal_text};

use crate::closing_lines::{end_line, refusal_line};
use drawing::{Drawing, Report};
use grid::{Sides, Voxel};
use std::alloc::AllocError;

// The line of a refusal goes to the end of the output.
pub(crate) fn push_refusal(output: &mut Vec<u8>, number: u8, told: u32) -> Result<(), AllocError>
    requires number { number < 100 }
    requires told { told < 100000000 }
    ensures { IfOk result (λ _. output.new.items ≡ output.old.items ++ refusal_text number told) }
{
    let line = refusal_line(number, told).unwrap();
    output.extend_from_slice(&line)
}

// Refusal 11, with the number of a voxel, goes to the end of the output.
pub(crate) fn push_lacking(
    output: &mut Vec<u8>,
    sides: Sides,
    voxel: Voxel,
) -> Result<(), AllocError>
    requires { Holds sides voxel }
    ensures { IfOk result (λ _. output.new.items ≡ output.old.items ++ refusal_text 11 (number_of sides voxel)) }
{
    push_refusal(output, 11, sides.voxel_number(voxel).unwrap())
}

// The drawing is closed, and the line of the end goes to the end of the output.
pub(crate) fn push_end(output: &mut Vec<u8>, drawing: Drawing) -> Result<(), AllocError>
    requires { drawing.cubes ≡ cube_count drawing.sides }
    ensures { IfOk result (λ _. output.new.items ≡ output.old.items ++ end_text drawing.cubes drawing.triangles) }
{
    let Report { cubes, triangles } = drawing.close().unwrap().report();
    let last = end_line(cubes, triangles).unwrap();
    output.extend_from_slice(&last)
}
