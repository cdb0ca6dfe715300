// A tray of either kind, for callers that have both in one list.
ghost use Rattle.std.specs.Prelude.{◌≡◌};
ghost use Rattle.tray.specs.declared.any_tray.AnyTray.TheVariants.{Records, Text};
ghost use Rattle.tray.specs.Kinds.{any_holds, any_lawful, AnyKeeps};

use crate::record_tray::RecordTray;
use crate::text_tray::TextTray;
use crate::tray::{Full, Tray};
use crate::triangle::Triangle;

// A record tray or a text tray; it is of one kind for good.
#[derive(Drop)]
pub enum AnyTray {
    Records(RecordTray),
    Text(TextTray),
}

impl From<RecordTray> for AnyTray {
    ghost from_gives = { λ tray any. any ≡ Records tray };

    fn from(tray: RecordTray) -> AnyTray {
        AnyTray::Records(tray)
    }
}

impl From<TextTray> for AnyTray {
    ghost from_gives = { λ tray any. any ≡ Text tray };

    fn from(tray: TextTray) -> AnyTray {
        AnyTray::Text(tray)
    }
}

// Each call is that of the tray inside.
impl Tray for AnyTray {
    ghost holds = { any_holds };

    ghost keeps = { AnyKeeps };

    ghost lawful = { any_lawful };

    fn free(&self) -> usize {
        match self {
            AnyTray::Records(tray) => tray.free(),
            AnyTray::Text(tray) => tray.free(),
        }
    }

    fn held(&self) -> usize {
        match self {
            AnyTray::Records(tray) => tray.held(),
            AnyTray::Text(tray) => tray.held(),
        }
    }

    fn nth(&self, n: usize) -> Option<Triangle> {
        match self {
            AnyTray::Records(tray) => tray.nth(n),
            AnyTray::Text(tray) => tray.nth(n),
        }
    }

    fn put(&mut self, triangle: Triangle) -> Result<(), Full> {
        match self {
            AnyTray::Records(tray) => tray.put(triangle),
            AnyTray::Text(tray) => tray.put(triangle),
        }
    }

    fn empty(&mut self) {
        match self {
            AnyTray::Records(tray) => tray.empty(),
            AnyTray::Text(tray) => tray.empty(),
        }
    }
}
