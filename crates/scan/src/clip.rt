// The part of a scan that a cut-out shows.
ghost use Rattle.std.specs.Prelude.{◌≡◌};
ghost use Rattle.grid.specs.Numbers.{Side};
ghost use Rattle.scan.specs.Cuts.{clip_length, clip_low, cut_low, cut_sides};

use crate::lengths::Lengths;
use grid::{Sides, Voxel};

// A side comes as a number, with its bound in a clause, since `Sides` gives it so. Each axis is named:
// lists of three sides, lengths and coordinates would be made and taken apart for one call each.

// The corner along one axis: one past the end goes back to the last voxel.
fn clip_low(side: u32, low: u32) -> u32
    requires { Side side }
    ensures { result ≡ clip_low side low }
{
    low.min(side - 1)
}

// The length along one axis: cut to what the corner leaves, but never below one voxel.
fn clip_length(side: u32, low: u32, length: u32) -> u32
    requires { Side side }
    ensures { result ≡ clip_length side low length }
{
    length.min(side - clip_low(side, low)).max(1)
}

// The corner of the part, lowered to the last voxel along each axis where it lies beyond.
pub(crate) fn corner(sides: Sides, low: Voxel) -> Voxel
    ensures { result ≡ cut_low sides low }
{
    Voxel {
        x: clip_low(sides.x(), low.x),
        y: clip_low(sides.y(), low.y),
        z: clip_low(sides.z(), low.z),
    }
}

// The sides of the part, each fitted along its axis.
pub(crate) fn part(sides: Sides, low: Voxel, lengths: Lengths) -> Sides
    ensures { result ≡ cut_sides sides low lengths }
{
    let x = clip_length(sides.x(), low.x, lengths.x);
    let y = clip_length(sides.y(), low.y, lengths.y);
    let z = clip_length(sides.z(), low.z, lengths.z);
    Sides::new(x, y, z).unwrap()
}
