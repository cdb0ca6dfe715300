// Which voxels of a cube are joined.
ghost use Rattle.std.specs.Prelude.{◌≡◌, ◌<◌, MatchBool};
ghost use Rattle.cube.specs.Cube.{kinds};
ghost use Rattle.cube.specs.Joined.{Joined, touches, taken, spread, seed, reached};
ghost use Rattle.cube.specs.Pairs.{Connected};
ghost use Rattle.graph.specs.Solids.{kinds_of};

use crate::solid::Solid;
use cube::{Connectedness, Mask};
use std::array;

// Whether two voxels of a cube are connected: they differ in at least one coordinate and in no more than allowed. By axis,
// since coordinates are what is counted; of a number from 8 on the lowest three bits count.
pub fn connected(c: Connectedness, i: u8, j: u8) -> bool
    ensures { MatchBool result (Connected c i j) (Connected c i j → ⊥) }
{
    let x = i % 2 != j % 2;
    let y = i / 2 % 2 != j / 2 % 2;
    let z = i / 4 % 2 != j / 4 % 2;
    let apart = u8::from(x) + u8::from(y) + u8::from(z);
    let most = match c {
        Connectedness::Six => 1,
        Connectedness::Eighteen => 2,
        Connectedness::TwentySix => 3,
    };
    (1..=most).contains(&apart)
}

impl Solid {
    // Whether a marked voxel is connected to voxel i.
    fn touches(self, marked: &[bool; 8], i: u8) -> bool
        ensures { result ≡ touches self.connectedness marked.now i }
    {
        // By number: how far apart voxels are goes by their numbers.
        (0..8).any(|j| marked[j as usize] && connected(self.connectedness, j, i))
    }

    // Whether voxel i is marked, or is solid and connected to a marked one. A mark stands at its voxel's number.
    fn takes(self, marked: &[bool; 8], i: u8) -> bool
        requires { i < 8 }
        ensures { result ≡ taken self.connectedness (kinds_of self) marked.now i }
    {
        marked[i as usize] || self.mask.is_solid(i) && self.touches(marked, i)
    }

    // The marks with those added that one step reaches.
    fn spread(self, marked: &[bool; 8]) -> [bool; 8]
        ensures { result ≡ spread self.connectedness (kinds_of self) marked.now }
    {
        array::from_fn(|i| self.takes(marked, i as u8))
    }

    // The mark on voxel a alone, where it is solid.
    fn seed(self, a: u8) -> [bool; 8]
        ensures { result ≡ seed (kinds_of self) a }
    {
        array::from_fn(|i| i == a as usize && self.mask.is_solid(a))
    }

    // What seven steps from voxel a reach. The steps are counted: no step is at anything.
    fn reached(self, a: u8) -> [bool; 8]
        ensures { result ≡ reached self.connectedness (kinds_of self) a }
    {
        let mut marked = self.seed(a);
        for _step in 0u8..7 {
            marked = self.spread(&marked);
        }
        marked
    }
}

// Whether steps between connected solid voxels of the cube lead from voxel a to voxel b; a solid voxel is joined to itself.
pub fn joined(mask: Mask, c: Connectedness, a: u8, b: u8) -> bool
    ensures { MatchBool result (Joined c (kinds mask.0) a b) (Joined c (kinds mask.0) a b → ⊥) }
{
    let solid = Solid {
        mask,
        connectedness: c,
    };
    // What is past the eighth is told apart before any step is taken.
    b < 8 && solid.reached(a)[b as usize]
}
