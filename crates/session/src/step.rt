// One call, made by the public calls of a drawing and of a tray.
ghost use Rattle.std.specs.Prelude.{◌≡◌, map};
ghost use Rattle.scan.specs.Meaning.{Meaning};
ghost use Rattle.session.specs.Keeping.{Leaves, LeavesBut};
ghost use Rattle.session.specs.Steps.{Clears, Steps, StepsAlone, Tries};
ghost use Rattle.session.specs.declared.call.Call.TheVariants.{Close, DrawOther, Open};

use crate::call::{Answer, Call};
use crate::state::State;
use drawing::{Asked, Drawing, Unfinished};
use scan::Scan;
use tray::Tray;

// What goes along with a call, scans and trays, goes as it is lent: a struct of shared and exclusive loans would be taken
// apart by each call. What a call leaves of the trays is one word, `Leaves`.

// A call is listed and compared by the laws, so that it is data and no closure.

// Makes one call where things stand, and answers how they stand then and what the call answered.
pub(crate) fn step<S: Scan, O: Scan, T: Tray>(
    scan: &S,
    others: &[O],
    trays: &mut [T],
    state: State,
    call: Call,
) -> (State, Option<Answer>)
    ensures steps { Steps (S.Scan.means scan.now) (map O.Scan.means others.now) state (map T.Tray.holds trays.old) call result.1 result.0 (map T.Tray.holds trays.new) }
    ensures rest { Leaves T.Tray.holds T.Tray.keeps call result.1 trays.old trays.new }
{
    match call {
        Call::Open(asked) => open(scan, state, asked),
        Call::Draw { tray, budget } => draw(scan, trays, state, tray, budget),
        Call::DrawOther {
            other,
            tray,
            budget,
        } => draw_other(scan, others, trays, state, other, tray, budget),
        Call::Close => close(state),
        Call::Empty { tray } => empty(trays, state, tray),
    }
}

// Opens the scan, if nothing was opened yet. Here and in `close` each case gives both how things stand and an answer, which
// `map` and `map_err` would give one at a time; a state that is not the one wanted goes back as it was, in each by its own
// last line, since a closure for it would have to own the state.
fn open<S: Scan>(scan: &S, state: State, asked: Asked) -> (State, Option<Answer>)
    ensures { StepsAlone (S.Scan.means scan.now) state (Open asked) result.1 result.0 }
{
    match state {
        State::Unopened => match Drawing::open(scan, asked) {
            Ok(drawing) => (State::Opened(drawing), Some(Answer::Opened(Ok(())))),
            Err(refusal) => (State::Unopened, Some(Answer::Opened(Err(refusal)))),
        },
        other => (other, None),
    }
}

// Draws on with a scan, if a drawing is open and the tray is there.
fn draw<S: Scan, T: Tray>(
    scan: &S,
    trays: &mut [T],
    state: State,
    tray: usize,
    budget: u32,
) -> (State, Option<Answer>)
    ensures tries { Tries (S.Scan.means scan.now) state (map T.Tray.holds trays.old) tray budget result.1 result.0 (map T.Tray.holds trays.new) }
    ensures rest { LeavesBut T.Tray.holds T.Tray.keeps tray result.1 trays.old trays.new }
{
    // By index, here and in `empty`: after `get_mut` of a slice nothing is known of its elements.
    if tray >= trays.len() {
        return (state, None);
    }
    match state {
        State::Opened(mut drawing) => {
            let result = drawing.draw(scan, &mut trays[tray], budget);
            (State::Opened(drawing), Some(Answer::Drawn(result)))
        }
        other => (other, None),
    }
}

// Tries to draw on with another scan, if it is there and has other sides.
fn draw_other<S: Scan, O: Scan, T: Tray>(
    scan: &S,
    others: &[O],
    trays: &mut [T],
    state: State,
    other: usize,
    tray: usize,
    budget: u32,
) -> (State, Option<Answer>)
    ensures steps { Steps (S.Scan.means scan.now) (map O.Scan.means others.now) state (map T.Tray.holds trays.old) (DrawOther other tray budget) result.1 result.0 (map T.Tray.holds trays.new) }
    ensures rest { LeavesBut T.Tray.holds T.Tray.keeps tray result.1 trays.old trays.new }
{
    let Some(another) = others.get(other) else {
        return (state, None);
    };
    if another.sides() == scan.sides() {
        return (state, None);
    }
    draw(another, trays, state, tray, budget)
}

// Closes the drawing, if one is open.
fn close(state: State) -> (State, Option<Answer>)
    ensures { (m : Meaning) → StepsAlone m state Close result.1 result.0 }
{
    match state {
        State::Opened(drawing) => match drawing.close() {
            Ok(closed) => {
                let report = closed.report();
                (State::Finished(closed), Some(Answer::Closed(Ok(report))))
            }
            Err(refusal) => {
                let answer = Answer::Closed(Err(Unfinished));
                (State::Opened(refusal.drawing), Some(answer))
            }
        },
        other => (other, None),
    }
}

// Empties a tray, if it is there.
fn empty<T: Tray>(trays: &mut [T], state: State, tray: usize) -> (State, Option<Answer>)
    ensures clears { Clears state (map T.Tray.holds trays.old) tray result.1 result.0 (map T.Tray.holds trays.new) }
    ensures rest { LeavesBut T.Tray.holds T.Tray.keeps tray result.1 trays.old trays.new }
{
    if tray >= trays.len() {
        return (state, None);
    }
    trays[tray].empty();
    (state, Some(Answer::Emptied))
}
