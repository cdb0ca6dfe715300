// Where the corner on a link lies.
ghost use Rattle.corner.specs.Placing.{Placed};

use crate::corner::{Corner, Place};
use crate::ends::Ends;
use crate::fraction::fraction;
use crate::point::point_at;
use crate::refusal::PlaceRefusal;
use drawing::Drawing;
use scan::MeasuredScan;

// The corner on the link with that number, in a drawing's own scan; refused, the first that applies, over a scan of other
// sides, a number that no link has, an end of the link that lacks a reading, and ends of one kind.
pub fn place<S: MeasuredScan>(
    drawing: &Drawing,
    scan: &S,
    link: u32,
) -> Result<Corner, PlaceRefusal>
    ensures { Placed drawing.now (S.Scan.means scan.now) (S.MeasuredScan.spaced scan.now) link result }
{
    if scan.sides() != drawing.sides() {
        return Err(PlaceRefusal::OtherSides);
    }
    let Ends { link, low, high } = Ends::read(scan, link)?;
    let test = drawing.test();
    if test.is_solid(low) == test.is_solid(high) {
        return Err(PlaceRefusal::OneKind);
    }
    let place = Place::on(link.axis, fraction(test, low, high));
    let point = point_at(scan.spacing(), link.lower, place);
    Ok(Corner { place, point })
}
