// A link of a scan with the readings at its ends.
ghost use Rattle.corner.specs.Placing.{EndsFound};

use crate::refusal::PlaceRefusal;
use grid::Link;
use scan::Scan;

// A link, and the readings at its lower and its upper end.
#[derive(Clone, Copy)]
pub(crate) struct Ends {
    pub(crate) link: Link,
    pub(crate) low: u16,
    pub(crate) high: u16,
}

impl Ends {
    // The link with that number and its readings; refused where no link has it, then where an end lacks a reading.
    pub(crate) fn read<S: Scan>(scan: &S, number: u32) -> Result<Ends, PlaceRefusal>
        ensures { EndsFound (S.Scan.means scan.now) number result }
    {
        let link = scan.sides().link_at(number).ok_or(PlaceRefusal::NoLink)?;
        let upper = link.upper().ok_or(PlaceRefusal::NoLink)?;
        let low = scan.read(link.lower).map_err(|_| PlaceRefusal::Lacking)?;
        let high = scan.read(upper).map_err(|_| PlaceRefusal::Lacking)?;
        Ok(Ends { link, low, high })
    }
}
