// Any list of calls, made one after the other.
ghost use Rattle.std.specs.Prelude.{◌≡◌, map};
ghost use Rattle.session.specs.Ways.{calls_of};
ghost use Rattle.session.specs.Whole.{Ran};

use crate::call::Entry;
use crate::state::State;
use crate::step::step;
use scan::Scan;
use tray::Tray;

// Makes the calls of the entries one after the other on a scan and the trays, writes each answer beside its call, and
// answers how things stand at the end. A call touches no tray but the one that it names; one that cannot be made where it
// stands has no answer and changes nothing.
pub fn run<S: Scan, O: Scan, T: Tray>(
    scan: &S,
    others: &[O],
    trays: &mut [T],
    entries: &mut [Entry],
) -> State
    ensures calls { calls_of entries.new ≡ calls_of entries.old }
    ensures ran { Ran (S.Scan.means scan.now) (map O.Scan.means others.now) T.Tray.holds T.Tray.keeps trays.old entries.new result trays.new }
{
    let mut state = State::Unopened;
    for entry in entries.iter_mut() {
        (state, entry.answer) = step(scan, others, trays, state, entry.call);
    }
    state
}
