// Coordinates in micrometres along one axis.
ghost use Rattle.std.specs.Prelude.{◌≤◌, ◌<◌};
ghost use Rattle.corner.specs.Coordinates.{IsVoxelCoordinate, IsCornerCoordinate};
ghost use Rattle.corner.specs.Fractions.{IsProper};

// The coordinate of a voxel.
#[tactic(auto, using(crate::proofs::Coordinates::voxel_coordinate))]
pub(crate) fn at(spacing: u32, index: u32) -> f32
    requires spacing_in_range { spacing ≤ 10_000 }
    requires index_in_range { index < 256 }
    ensures { IsVoxelCoordinate spacing index result }
{
    spacing as f32 * index as f32
}

// The coordinate of a corner, a fraction of the way from the voxel with that index to the next.
pub(crate) fn along(spacing: u32, index: u32, fraction: f32) -> f32
    requires spacing_in_range { spacing ≤ 10_000 }
    requires index_in_range { index < 256 }
    requires proper { IsProper fraction }
    ensures { IsCornerCoordinate spacing index fraction result }
{
    spacing as f32 * (index as f32 + fraction)
}
