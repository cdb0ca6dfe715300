// Drawing a scan that is open, by draws of one budget.
ghost use Rattle.std.specs.Prelude.{◌≡◌, ◌<◌, []};
ghost use Rattle.grid.specs.Cubes.{cube_count};
ghost use Rattle.exported.specs.Drawings.{Drew, last_number};

use crate::told::Told;
use drawing::{Drawing, Ending};
use scan::Scan;
use tray::Tray;

// The number that tells how the last draw ended, 0 where no cube is left; none where it is not the last.
fn last(ending: Ending) -> Option<u8>
    ensures { result ≡ last_number ending }
{
    match ending {
        Ending::Done => Some(0),
        Ending::Budget | Ending::Lacking { .. } | Ending::Full { .. } => ending.number(),
    }
}

// Draws until no cube is left or a draw ends before its budget.
pub(crate) fn draw_on<S: Scan, T: Tray>(
    scan: &S,
    drawing: &mut Drawing,
    tray: &mut T,
    budget: u32,
) -> Told
    requires sides { drawing.old.sides ≡ (S.Scan.means scan.now).sides }
    requires begins { drawing.old.cubes ≡ 0 }
    requires cubes { 0 < cube_count drawing.old.sides }
    requires budget { 0 < budget }
    requires empty { (T.Tray.holds tray.old).list ≡ [] }
    ensures { Drew (S.Scan.means scan.now) drawing.old budget (T.Tray.holds tray.old).free result (T.Tray.holds tray.new).list }
{
    let count = scan.sides().cube_count();
    let mut draws = 0u32;
    loop {
        let progress = drawing.draw(scan, tray, budget).unwrap();
        draws += 1;
        if let Some(number) = last(progress.ending) {
            return Told {
                refusal: number.into(),
                cubes: count - progress.left,
                draws,
                triangles: tray.held(),
            };
        }
    }
}
