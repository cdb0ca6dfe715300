// The four pairs of connectedness, of solid and of hollow, under which a surface is closed.
ghost use Rattle.std.specs.Prelude.{◌≡◌};
ghost use Rattle.cube.specs.Pairs.{of_solid, of_hollow, swap};

// How far apart two voxels may be and still touch: they differ in one coordinate, in one or two, or in one to three.
#[derive(Clone, Copy, PartialEq, Eq, Debug)]
pub enum Connectedness {
    Six,
    Eighteen,
    TwentySix,
}

// The connectedness of solid, then that of hollow.
#[derive(Clone, Copy, PartialEq, Eq, Debug)]
pub enum Pair {
    S18H6,
    S26H6,
    S6H18,
    S6H26,
}

impl Pair {
    // The connectedness of solid.
    pub fn solid(self) -> Connectedness
        ensures { result ≡ of_solid self }
    {
        match self {
            Pair::S18H6 => Connectedness::Eighteen,
            Pair::S26H6 => Connectedness::TwentySix,
            Pair::S6H18 => Connectedness::Six,
            Pair::S6H26 => Connectedness::Six,
        }
    }

    // The connectedness of hollow. Written out as that of solid is: from the swapped pair it would have to be worked out.
    pub fn hollow(self) -> Connectedness
        ensures { result ≡ of_hollow self }
    {
        match self {
            Pair::S18H6 => Connectedness::Six,
            Pair::S26H6 => Connectedness::Six,
            Pair::S6H18 => Connectedness::Eighteen,
            Pair::S6H26 => Connectedness::TwentySix,
        }
    }

    // The pair with solid and hollow swapped.
    pub fn swapped(self) -> Pair
        ensures { result ≡ swap self }
    {
        match self {
            Pair::S18H6 => Pair::S6H18,
            Pair::S26H6 => Pair::S6H26,
            Pair::S6H18 => Pair::S18H6,
            Pair::S6H26 => Pair::S26H6,
        }
    }
}
