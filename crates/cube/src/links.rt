// The links of a cube.
ghost use Rattle.std.specs.Prelude.{◌≡◌, ◌<◌, ◌↔◌, IsSome, IfSome};
ghost use Rattle.cube.specs.Cube.{lower, upper};

// The lower and the upper voxel of each cube link.
const ENDS: [(u8, u8); 12] = [
    (0, 1),
    (2, 3),
    (4, 5),
    (6, 7),
    (0, 2),
    (1, 3),
    (4, 6),
    (5, 7),
    (0, 4),
    (1, 5),
    (2, 6),
    (3, 7),
];

// The lower and the upper voxel of a cube link; none past the twelfth.
pub fn ends(link: u8) -> Option<(u8, u8)>
    ensures within { IsSome result ↔ (link < 12) }
    ensures value { IfSome result (λ e. e ≡ (lower link, upper link)) }
{
    ENDS.get(link as usize).copied()
}
