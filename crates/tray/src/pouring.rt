// Pouring one tray into another.
ghost use Rattle.std.specs.Prelude.{◌≡◌, min, length, take};
ghost use Rattle.tray.specs.Holding.{KeepsRest, added_all};

use crate::tray::Tray;

// Puts the triangles of one tray at the end of another, in order, until that is full, and answers how many went over; the first stays
// as it was.
pub fn pour<S: Tray, T: Tray>(from: &S, into: &mut T) -> usize
    ensures count { result ≡ min (length (S.Tray.holds from.now).list) (T.Tray.holds into.old).free }
    ensures poured { T.Tray.holds into.new ≡ added_all (T.Tray.holds into.old) (take result (S.Tray.holds from.now).list) }
    ensures rest { KeepsRest T.Tray.holds T.Tray.keeps into.old into.new }
{
    let held = from.held();
    // By place: the trait tells its triangles by place, and a `while let` over `nth` would count by hand.
    for n in 0..held {
        let triangle = from.nth(n).unwrap();
        if into.put(triangle).is_err() {
            return n;
        }
    }
    held
}
