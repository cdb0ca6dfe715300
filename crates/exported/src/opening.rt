// Opening a drawing of the readings.
ghost use Rattle.std.specs.Prelude.{◌≡◌};
ghost use Rattle.exported.specs.Askings.{OpenMade, OpenTold, WellAsked};
ghost use Rattle.exported.specs.Drawings.{DrawStarted};

use crate::asking::Asking;
use crate::refusal::Refusal;
use drawing::{DrawRefusal, Drawing};
use scan::Block;
use std::alloc::Global;

// A block, and an open drawing of it.
#[derive(Drop)]
pub(crate) struct Opened {
    pub(crate) block: Block,
    pub(crate) drawing: Drawing,
}

// Copies the readings into a block, its voxels 1 micrometre apart, and opens a drawing of it; refused over memory, and then as
// the opening is.
fn open(heap: Global, asking: &Asking, readings: &[u16]) -> Result<Opened, Refusal>
    requires { WellAsked asking.now readings.now }
    ensures { OpenMade asking.now readings.now result }
{
    let values = Vec::from_slice(heap, readings)?;
    let block = Block::new(asking.sides(), [1; 3].into(), values)?;
    let drawing = Drawing::open(&block, asking.opening())?;
    Ok(Opened { block, drawing })
}

// Looks at what is asked, and opens a drawing of the readings.
fn open_asked(heap: Global, asking: &Asking, readings: &[u16]) -> Result<Opened, Refusal>
    ensures { OpenMade asking.now readings.now result }
{
    asking.check(readings)?;
    open(heap, asking, readings)
}

// Opens a drawing of the readings, to be drawn by draws of the budget; refused as `check` refuses, over a budget of 0, over memory,
// or as the opening is.
#[tactic(auto, using(crate::proofs::Askings::over_any_budget, crate::proofs::Askings::over_this_budget))]
pub(crate) fn start(heap: Global, asking: &Asking, readings: &[u16]) -> Result<Opened, Refusal>
    ensures { DrawStarted asking.now readings.now result }
{
    asking.check(readings)?;
    if asking.budget == 0 {
        return Err(DrawRefusal::ZeroBudget.into());
    }
    open(heap, asking, readings)
}

// Opens a drawing of the readings: 0, or the number of the refusal, or 255 where there is no memory for them.
#[unsafe(no_mangle)]
pub extern "C" fn exported_open(heap: Global, asking: &Asking, readings: &[u16]) -> u8
    ensures { OpenTold asking.now readings.now result }
{
    match open_asked(heap, asking, readings) {
        Ok(_) => 0,
        Err(refusal) => refusal.into(),
    }
}
