// The links of a scan and their numbers.
ghost use Rattle.grid.specs.Links.{LinkNumbered, Links, NoLink};
ghost use Rattle.std.specs.Prelude.{MatchBool, MatchOption};

use crate::axis::Axis;
use crate::link::Link;
use crate::sides::Sides;

impl Sides {
    // Whether the scan holds both ends of the link.
    pub fn holds_link(self, link: Link) -> bool
        ensures { MatchBool result (Links self link) (Links self link → ⊥) }
    {
        self.holds(link.lower) && link.upper().is_some_and(|upper| self.holds(upper))
    }

    // The link's number, which no other link of the scan has; none if an end lies outside.
    pub fn link_number(self, link: Link) -> Option<u32>
        ensures { MatchOption result (Links self link → ⊥) (λ n. LinkNumbered self link n) }
    {
        if !self.holds_link(link) {
            return None;
        }
        let lower = self.voxel_number(link.lower)?;
        Some(3 * lower + u32::from(link.axis))
    }

    // The link with that number; none if the number names no link of the scan.
    pub fn link_at(self, number: u32) -> Option<Link>
        ensures { MatchOption result (NoLink self number) (λ k. LinkNumbered self k number) }
    {
        let lower = self.voxel_at(number / 3)?;
        let axis = Axis::try_from(number % 3).ok()?;
        let link = Link { lower, axis };
        self.holds_link(link).then_some(link)
    }
}
