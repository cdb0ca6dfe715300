// Why nothing is drawn.
ghost use Rattle.std.specs.Prelude.{◌≡◌};
ghost use Rattle.exported.specs.Refusals.{number};
ghost use Rattle.exported.specs.declared.refusal.Refusal.TheVariants.{Draw, Memory, Open, Scan};

use drawing::{DrawRefusal, OpenRefusal};
use std::alloc::AllocError;

// What stands against drawing the readings as a caller asks.
#[derive(Clone, Copy)]
pub enum Refusal {
    // The readings make no block.
    Scan(scan::Refusal),
    // The block is not opened.
    Open(OpenRefusal),
    // The budget of each draw is 0.
    Draw(DrawRefusal),
    // There is no memory for a copy of the readings, or for the triangles.
    Memory,
}

impl From<scan::Refusal> for Refusal {
    ghost from_gives = { λ refused refusal. refusal ≡ Scan refused };

    fn from(refused: scan::Refusal) -> Refusal {
        Refusal::Scan(refused)
    }
}

impl From<OpenRefusal> for Refusal {
    ghost from_gives = { λ refused refusal. refusal ≡ Open refused };

    fn from(refused: OpenRefusal) -> Refusal {
        Refusal::Open(refused)
    }
}

impl From<DrawRefusal> for Refusal {
    ghost from_gives = { λ refused refusal. refusal ≡ Draw refused };

    fn from(refused: DrawRefusal) -> Refusal {
        Refusal::Draw(refused)
    }
}

impl From<AllocError> for Refusal {
    ghost from_gives = { λ _ refusal. refusal ≡ Memory };

    fn from(_error: AllocError) -> Refusal {
        Refusal::Memory
    }
}

// The refusal's number; 255 where there is no memory.
impl From<Refusal> for u8 {
    ghost from_gives = { λ refusal n. n ≡ number refusal };

    fn from(refusal: Refusal) -> u8 {
        match refusal {
            Refusal::Scan(refused) => refused.into(),
            Refusal::Open(refused) => refused.into(),
            Refusal::Draw(refused) => refused.into(),
            Refusal::Memory => 255,
        }
    }
}
