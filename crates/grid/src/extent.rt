// A box of places, numbered with x fastest.
ghost use Rattle.std.specs.Prelude.{◌≡◌, ◌≤◌, MatchBool, MatchOption};

use crate::voxel::Voxel;

// How many places a box has along each axis, at most 256: the counts and numbers of voxels and of cubes are worked out once.
#[derive(Clone, Copy)]
pub(crate) struct Extent {
    pub(crate) x: u32,
    pub(crate) y: u32,
    pub(crate) z: u32,
    ghost bounded: { (x ≤ 256) × (y ≤ 256) × (z ≤ 256) },
}

impl Extent {
    ghost use Rattle.grid.specs.Extents.{PlaceNumbered, Within, places_of};

    // Whether the box holds the place. By axis.
    pub(crate) fn holds(self, v: Voxel) -> bool
        ensures { MatchBool result (Within self v) (Within self v → ⊥) }
    {
        v.x < self.x && v.y < self.y && v.z < self.z
    }

    // How many places the box has. The bound stands in the contracts of each count, for callers that reckon on with it.
    #[tactic(auto, using(crate::proofs::Numbering::count_bound))]
    pub(crate) fn count(self) -> u32
        ensures { (result ≡ places_of self) × (result ≤ 16777216) }
    {
        self.x * (self.y * self.z)
    }

    // The number of a place; none outside the box. With `if`: it can be worked out only for a place in the box.
    #[tactic(auto, using(crate::proofs::Numbering::rows_bound))]
    pub(crate) fn number(self, v: Voxel) -> Option<u32>
        ensures { MatchOption result (Within self v → ⊥) (PlaceNumbered self v) }
    {
        if self.holds(v) {
            Some(v.x + self.x * (v.y + self.y * v.z))
        } else {
            None
        }
    }

    // The place with that number; none if the box has no more places than that.
    #[tactic(auto, using(crate::proofs::Numbering::place_back))]
    pub(crate) fn at(self, number: u32) -> Option<Voxel>
        ensures { MatchOption result (places_of self ≤ number) (λ v. PlaceNumbered self v number) }
    {
        if number >= self.count() {
            return None;
        }
        let row = number / self.x;
        Some(Voxel {
            x: number % self.x,
            y: row % self.y,
            z: row / self.y,
        })
    }
}
