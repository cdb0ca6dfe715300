// A scan whose readings are listed voxel by voxel.
ghost use Rattle.std.specs.Prelude.{◌≡◌, IfOk, IfErr, vec_len};
ghost use Rattle.grid.specs.Numbers.{place_count};
ghost use Rattle.grid.specs.Voxels.{count_of};
ghost use Rattle.scan.specs.Blocks.{ShowsValues, block_means};
ghost use Rattle.scan.specs.Making.{Refused, SidesFit, SpacingFits};
ghost use Rattle.scan.specs.Spacings.{SpacingIs};
ghost use Rattle.scan.specs.Laws.Lawful.{block_lawful};

use crate::fault::{Cause, Fault};
use crate::lengths::Lengths;
use crate::measured::MeasuredScan;
use crate::refusal::Refusal;
use crate::scan::Scan;
use crate::spacing::Spacing;
use grid::{Sides, Voxel};

// The value that stands for no reading: blocks come as lists of 16-bit values, with this mark in them.
const NO_READING: u16 = 65_535;

// Values in voxel order, one for each voxel; 65,535 means that the voxel has no reading. A voxel's number is the place of
// its value.
#[derive(Drop)]
pub struct Block {
    sides: Sides,
    spacing: Spacing,
    values: Vec<u16>,
    ghost whole: { vec_len values ≡ count_of sides },
}

impl Block {
    // The block of these values; refused over a side, over the number of values, then over the spacing.
    pub fn new(sides: Lengths, spacing: Lengths, values: Vec<u16>) -> Result<Block, Refusal>
        ensures shows { IfOk result (λ b. ShowsValues (block_means b.sides b.values.items) sides values.items) }
        ensures kept { IfOk result (λ b. (b.values ≡ values) × SpacingIs b.spacing spacing) }
        ensures refusal { IfErr result (λ e. Refused e (SidesFit sides × (vec_len values ≡ place_count sides.x sides.y sides.z)) (SpacingFits spacing) (Unit {0})) }
    {
        let sides = Sides::try_from(sides)?;
        if values.len() != sides.voxel_count() as usize {
            return Err(Refusal::Size);
        }
        let spacing = Spacing::try_from(spacing)?;
        Ok(Block {
            sides,
            spacing,
            values,
        })
    }
}

impl Scan for Block {
    ghost means = { λ b. block_means b.sides b.values.items };

    ghost lawful = { λ b. block_lawful b.sides b.values.items };

    fn sides(&self) -> Sides {
        self.sides
    }

    fn read(&self, place: Voxel) -> Result<u16, Fault> {
        let outside = Fault::own(Cause::Outside, place);
        let number = self.sides.voxel_number(place).ok_or(outside)?;
        let value = self.values[number as usize];
        if value == NO_READING {
            Err(Fault::own(Cause::NoReading, place))
        } else {
            Ok(value)
        }
    }
}

impl MeasuredScan for Block {
    ghost spaced = { λ b. b.spacing };

    fn spacing(&self) -> Spacing {
        self.spacing
    }
}
