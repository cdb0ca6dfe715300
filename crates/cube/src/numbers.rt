// The numbers by which a connectedness and a pair are known.
ghost use Rattle.std.specs.Prelude.{◌≡◌, ◌≢◌, MatchResult};
ghost use Rattle.cube.specs.Pairs.{number, numbers};
ghost use Rattle.cube.specs.declared.pair.Pair.{Pair as ThePair};

use crate::pair::{Connectedness, Pair};

// 6, 18 or 26.
impl From<Connectedness> for u16 {
    ghost from_gives = { λ c n. n ≡ number c };

    fn from(connectedness: Connectedness) -> u16 {
        match connectedness {
            Connectedness::Six => 6,
            Connectedness::Eighteen => 18,
            Connectedness::TwentySix => 26,
        }
    }
}

// The numbers of a pair, that of solid first.
impl From<Pair> for (u16, u16) {
    ghost from_gives = { λ p n. n ≡ numbers p };

    fn from(pair: Pair) -> (u16, u16) {
        (pair.solid().into(), pair.hollow().into())
    }
}

// Two numbers that are not those of one of the four pairs.
#[derive(Clone, Copy, PartialEq, Eq, Debug)]
pub struct NoPair;

// The pair of two numbers, that of solid first; refused where they are not those of one of the four.
impl TryFrom<(u16, u16)> for Pair {
    type Error = NoPair;

    ghost try_from_gives = { λ n r. MatchResult r (λ p. numbers p ≡ n) (λ _. (p : ThePair) → numbers p ≢ n) };

    fn try_from(numbers: (u16, u16)) -> Result<Pair, NoPair> {
        match numbers {
            (18, 6) => Ok(Pair::S18H6),
            (26, 6) => Ok(Pair::S26H6),
            (6, 18) => Ok(Pair::S6H18),
            (6, 26) => Ok(Pair::S6H26),
            _ => Err(NoPair),
        }
    }
}
