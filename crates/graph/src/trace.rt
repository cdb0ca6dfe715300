// The loops that the edges on a cube's faces form.
ghost use Rattle.std.specs.Prelude.{◌≡◌, ◌<◌, map, IfOk, vec_items, nat_le};
ghost use Rattle.std.specs.List.{list_all};
ghost use Rattle.cube.specs.Cube.{kinds};
ghost use Rattle.cube.specs.Loops.{next, loop_from, loops as the-loops};
ghost use Rattle.graph.specs.Solids.{kinds_of, edges_of};
ghost use Rattle.graph.specs.Successors.{ahead, by_walks, Leads};

use crate::solid::Solid;
use crate::walk::{BothWays, Walk};
use crate::walks::WALKS;
use cube::{Connectedness, Mask};
use std::alloc::{AllocError, Global};

// Four calls want a link below twelve, each by a clause: a type for it would be taken apart at once, for the table and for
// the list of corners, which hold plain numbers.
impl Solid {
    // The link of the end that belongs to the start at a walk's first step: the next end, or under six the end
    // before it, which is what the rule says of each.
    fn end_of(self, walk: Walk) -> u8
        ensures { result ≡ ahead self.connectedness (kinds_of self) walk }
    {
        let c = self.mask.is_solid(walk.c);
        let d = self.mask.is_solid(walk.d);
        match self.connectedness {
            Connectedness::Six if !d => walk.da,
            Connectedness::Six if !c => walk.cd,
            Connectedness::Six => walk.bc,
            _ if c => walk.bc,
            _ if d => walk.cd,
            _ => walk.da,
        }
    }

    // Where a table of walks leads from a link, which is its place there: the link itself where it carries no corner.
    fn by_walks(self, walks: &[BothWays; 12], link: u8) -> u8
        requires { link < 12 }
        ensures { result ≡ by_walks walks.now self.connectedness (kinds_of self) link }
    {
        let BothWays { up, down } = walks[link as usize];
        match (self.mask.is_solid(up.a), self.mask.is_solid(up.b)) {
            (true, false) => self.end_of(up),
            (false, true) => self.end_of(down),
            _ => link,
        }
    }

    // Where the edge from a link leads, by any table that leads as the graph does. Apart from the two calls beside it, so
    // that the proof computes with the walks just once.
    fn follow(self, walks: &[BothWays; 12], link: u8) -> u8
        requires table { Leads walks.now }
        requires link { link < 12 }
        ensures { (result ≡ next (edges_of self) link) × (result < 12) }
    {
        self.by_walks(walks, link)
    }

    // Where the edge from a link leads in the cube's graph; the link itself where it carries no corner.
    fn successor(self, link: u8) -> u8
        requires { link < 12 }
        ensures { (result ≡ next (edges_of self) link) × (result < 12) }
    {
        self.follow(&WALKS, link)
    }

    // The corners of the loop through a link, from that link along its direction; the steps are counted, twelve at most.
    fn loop_from(self, heap: Global, link: u8) -> Result<Vec<u8>, AllocError>
        requires { link < 12 }
        ensures { IfOk result (λ v. v.items ≡ loop_from (edges_of self) link) }
    {
        let mut corners = Vec::new(heap);
        let mut at = link;
        for _step in 0u8..12 {
            corners.push(at)?;
            at = self.successor(at);
            if at == link {
                return Ok(corners);
            }
        }
        Ok(corners)
    }
}

// Whether no corner of a list is below a link.
fn none_below(corners: &[u8], link: u8) -> bool
    ensures { result ≡ list_all (nat_le link) corners.now }
{
    corners.iter().all(|corner| link <= *corner)
}

// The loops of a cube's graph, each from its lowest link along its direction, in the order of these: links are numbers.
pub fn loops(heap: Global, mask: Mask, s: Connectedness) -> Result<Vec<Vec<u8>>, AllocError>
    ensures { IfOk result (λ v. map vec_items v.items ≡ the-loops s (kinds mask.0)) }
{
    let solid = Solid {
        mask,
        connectedness: s,
    };
    let mut found = Vec::new(heap);
    for link in 0u8..12 {
        if mask.carries_corner(link) {
            let corners = solid.loop_from(heap, link)?;
            if none_below(&corners, link) {
                found.push(corners)?;
            }
        }
    }
    Ok(found)
}
