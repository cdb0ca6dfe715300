// The voxels of a scan and their numbers.
ghost use Rattle.std.specs.Prelude.{◌≡◌, ◌+◌, ◌<◌, ◌≤◌, ◌⊎◌, MatchBool, MatchOption};
ghost use Rattle.grid.specs.Voxels.{Holds, OnBorder, VoxelNumbered, count_of};

use crate::sides::Sides;
use crate::voxel::Voxel;

impl Sides {
    // Whether the voxel lies in the scan.
    pub fn holds(self, v: Voxel) -> bool
        ensures { MatchBool result (Holds self v) (Holds self v → ⊥) }
    {
        self.voxels().holds(v)
    }

    // How many voxels the scan has.
    pub fn voxel_count(self) -> u32
        ensures { (result ≡ count_of self) × (result ≤ 16777216) }
    {
        self.voxels().count()
    }

    // The voxel's number, which no other voxel of the scan has; none outside the scan.
    pub fn voxel_number(self, v: Voxel) -> Option<u32>
        ensures { MatchOption result (Holds self v → ⊥) (λ n. VoxelNumbered self v n) }
    {
        self.voxels().number(v)
    }

    // The voxel with that number; none from the count of voxels on.
    pub fn voxel_at(self, number: u32) -> Option<Voxel>
        ensures { MatchOption result (count_of self ≤ number) (λ v. VoxelNumbered self v number) }
    {
        self.voxels().at(number)
    }

    // Whether the voxel lies in the scan with a coordinate that is 0 or the last along its axis. By axis.
    pub fn on_border(self, v: Voxel) -> bool
        ensures { MatchBool result (OnBorder self v) (OnBorder self v → ⊥) }
    {
        self.holds(v) && (ends(v.x, self.x) || ends(v.y, self.y) || ends(v.z, self.z))
    }
}

// Whether a coordinate is the first or the last along a side.
pub(crate) fn ends(at: u32, side: u32) -> bool
    requires { at < side }
    ensures { MatchBool result ((at ≡ 0) ⊎ (at + 1 ≡ side)) ((at ≡ 0) ⊎ (at + 1 ≡ side) → ⊥) }
{
    at == 0 || at + 1 == side
}
