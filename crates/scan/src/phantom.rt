// A scan that is painted with shapes.
ghost use Rattle.std.specs.Prelude.{◌≡◌, true, IfOk, IfErr};
ghost use Rattle.scan.specs.Making.{Refused, SidesFit, SpacingFits};
ghost use Rattle.scan.specs.Spacings.{SpacingIs};
ghost use Rattle.scan.specs.Phantoms.{ShapesFit, ShowsShapes, phantom_means, shapes_fit};
ghost use Rattle.scan.specs.Laws.Lawful.{phantom_lawful};

use crate::fault::{Cause, Fault};
use crate::lengths::Lengths;
use crate::measured::MeasuredScan;
use crate::painted;
use crate::refusal::Refusal;
use crate::scan::Scan;
use crate::shape::Shape;
use crate::spacing::Spacing;
use grid::{Sides, Voxel};

// Shapes in order: the first that covers a voxel gives its reading, and where none does it is 0. Sides and spacing stand
// beside them as beside the values of a block: a struct of the two would be opened for each question.
#[derive(Drop)]
pub struct Phantom {
    sides: Sides,
    spacing: Spacing,
    shapes: Vec<Shape>,
    ghost fitting: { shapes_fit shapes.items ≡ true },
}

impl Phantom {
    // The phantom of these shapes; refused over a side, then over the spacing, then over the shapes.
    pub fn new(sides: Lengths, spacing: Lengths, shapes: Vec<Shape>) -> Result<Phantom, Refusal>
        ensures shows { IfOk result (λ p. ShowsShapes (phantom_means p.sides p.shapes.items) sides shapes.items) }
        ensures kept { IfOk result (λ p. (p.shapes ≡ shapes) × SpacingIs p.spacing spacing) }
        ensures refusal { IfErr result (λ e. Refused e (SidesFit sides) (SpacingFits spacing) (ShapesFit shapes.items)) }
    {
        let sides = Sides::try_from(sides)?;
        let spacing = Spacing::try_from(spacing)?;
        if !painted::all_fit(&shapes) {
            return Err(Refusal::Shapes);
        }
        Ok(Phantom {
            sides,
            spacing,
            shapes,
        })
    }
}

impl Scan for Phantom {
    ghost means = { λ p. phantom_means p.sides p.shapes.items };

    ghost lawful = { λ p. phantom_lawful p.sides p.shapes.items p.fitting };

    fn sides(&self) -> Sides {
        self.sides
    }

    #[tactic(auto, using(crate::specs::Laws::Painting::reads_bound))]
    fn read(&self, place: Voxel) -> Result<u16, Fault> {
        if self.sides.holds(place) {
            Ok(painted::reading(&self.shapes, place) as u16)
        } else {
            Err(Fault::own(Cause::Outside, place))
        }
    }
}

impl MeasuredScan for Phantom {
    ghost spaced = { λ p. p.spacing };

    fn spacing(&self) -> Spacing {
        self.spacing
    }
}
