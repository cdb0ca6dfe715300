// Drawing on: cube after cube, until the budget or the cubes run out or a cube cannot be drawn.
ghost use Rattle.std.specs.Prelude.{◌≡◌, ◌≤◌, IfErr};
ghost use Rattle.drawing.specs.Draws.{Drawn, Draws};
ghost use Rattle.drawing.specs.Stretches.{Stretched};
ghost use Rattle.grid.specs.Cubes.{cube_count};
ghost use Rattle.tray.specs.Holding.{KeepsRest};

use crate::cube_at::CubeAt;
use crate::drawing::Drawing;
use crate::progress::{DrawRefusal, Ending, Progress};
use crate::stretch::Stretch;
use scan::Scan;
use tray::Tray;

// Scan and tray go along as they are lent: a struct of a shared and an exclusive loan would be taken apart by each call.
impl Drawing {
    // Draws the cubes from where the drawing stands up to, and without, the cube with that number, or up to the first
    // that cannot be drawn. Cubes go by number; with `match`, since such a cube ends
    // the stretch and what was drawn before it is told.
    fn stretch<S: Scan, T: Tray>(&self, scan: &S, tray: &mut T, end: u32) -> Stretch
        requires { (self.now.cubes ≤ end) × (end ≤ cube_count self.now.sides) }
        ensures { Stretched T.Tray.holds T.Tray.keeps (S.Scan.means scan.now) self.now end tray.old tray.new result }
    {
        let from = self.cubes;
        let mut laid = 0u32;
        let mut next = CubeAt::new(self.sides, from);
        let mut left = None;
        for number in from..end {
            let at = next.unwrap();
            match self.lay_cube(scan, tray, at, left, number) {
                Ok(cube) => {
                    laid += cube.count;
                    left = Some(cube.mask);
                    next = at.next();
                }
                Err(ending) => {
                    return Stretch {
                        drawn: number - from,
                        laid,
                        stop: Some(ending),
                    };
                }
            }
        }
        Stretch {
            drawn: end - from,
            laid,
            stop: None,
        }
    }

    // Draws at most so many cubes into the tray, and tells how far it came and why no further; refused, changing nothing,
    // over a scan of other sides and over a budget of 0.
    #[tactic(auto, using(grid::proofs::Same::sides_same))]
    pub fn draw<S: Scan, T: Tray>(
        &mut self,
        scan: &S,
        tray: &mut T,
        budget: u32,
    ) -> Result<Progress, DrawRefusal>
        ensures draws { Draws (S.Scan.means scan.now) budget self.old (T.Tray.holds tray.old) result self.new (T.Tray.holds tray.new) }
        ensures refused { IfErr result (λ _. tray.new ≡ tray.old) }
        ensures rest { KeepsRest T.Tray.holds T.Tray.keeps tray.old tray.new }
    {
        if scan.sides() != self.sides {
            return Err(DrawRefusal::OtherSides);
        }
        if budget == 0 {
            return Err(DrawRefusal::ZeroBudget);
        }
        Ok(self.advance(scan, tray, budget))
    }

    // Draws at most so many cubes into the tray.
    fn advance<S: Scan, T: Tray>(&mut self, scan: &S, tray: &mut T, budget: u32) -> Progress
        ensures drawn { Drawn (S.Scan.means scan.now) budget self.old (T.Tray.holds tray.old) result self.new (T.Tray.holds tray.new) }
        ensures rest { KeepsRest T.Tray.holds T.Tray.keeps tray.old tray.new }
    {
        let count = self.sides.cube_count();
        let left = count - self.cubes;
        let end = self.cubes + budget.min(left);
        let Stretch { drawn, laid, stop } = self.stretch(scan, tray, end);
        self.cubes += drawn;
        self.triangles += laid;
        let left = left - drawn;
        let unstopped = if left == 0 {
            Ending::Done
        } else {
            Ending::Budget
        };
        Progress {
            drawn,
            laid,
            left,
            ending: stop.unwrap_or(unstopped),
        }
    }
}
