// The fields of a line, read one after the other.
ghost use Rattle.std.specs.Prelude.{◌≤◌, IfSome};
ghost use Rattle.listing.specs.Cutting.{left};
ghost use Rattle.listing.specs.Fields.{Takes, letter_field, number_field, side_field};

use crate::header::letter_named;
use crate::number::number;
use crate::pieces::Pieces;
use drawing::Letter;

// A side is at most this.
const SIDE: u32 = 256;

impl Pieces<'_> {
    // The next field as a number; none where there is no field, or it writes none.
    #[tactic(auto, using(crate::proofs::Numbers::number_told))]
    pub(crate) fn number(&mut self) -> Option<u16>
        ensures { Takes (number_field (left self.old)) result (left self.new) }
    {
        number(self.next()?)
    }

    // The next field as a side, which is 1 to 256.
    pub(crate) fn side(&mut self) -> Option<u32>
        ensures taken { Takes (side_field (left self.old)) result (left self.new) }
        ensures range { IfSome result (λ n. (1 ≤ n) × (n ≤ 256)) }
    {
        let side = u32::from(self.number()?);
        if side == 0 || side > SIDE {
            return None;
        }
        Some(side)
    }

    // The next field as a letter; none where it is no single H or L.
    pub(crate) fn letter(&mut self) -> Option<Letter>
        ensures { Takes (letter_field (left self.old)) result (left self.new) }
    {
        let [byte] = self.next()? else {
            return None;
        };
        letter_named(char::from(*byte))
    }
}
