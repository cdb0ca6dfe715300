// What a tray is: a holder of triangles, with places that are in use or free.
ghost use Rattle.std.specs.Prelude.{◌≡◌, ℕ, length, Some, codes};
ghost use Rattle.tray.specs.Holding.{Held, KeepsRest, Lawful, Nth, Put, emptied};

use crate::triangle::Triangle;
use std::error::Error;
use std::fmt;

// The answer of a tray with no free place.
#[derive(Clone, Copy, PartialEq, Eq, Debug)]
pub struct Full;

impl fmt::Display for Full {
    ghost output = { λ _. Some (codes "the tray is full") };

    fn fmt<W: fmt::Write>(&self, f: &mut fmt::Formatter<W>) -> fmt::Result {
        write!(f, "the tray is full")
    }
}

impl Error for Full {}

// A holder of triangles in the order in which they came. Its meaning is the list that it holds and its number of free places.
pub trait Tray {
    // The list, and the free places.
    ghost holds: { Self → Held };

    // From one state to another, whatever the tray stands over past its first n places stays as it was.
    ghost keeps: { ℕ → Self → Self → Type 0 };

    // The places in use and the free ones together fit a machine word, and keeping goes through any number of calls.
    ghost lawful: { Lawful holds keeps };

    // How many places are free.
    fn free(&self) -> usize
        ensures { result ≡ (holds self.now).free };

    // How many triangles it holds.
    fn held(&self) -> usize
        ensures { result ≡ length (holds self.now).list };

    // The n-th triangle from 0; none where n is not below the number held.
    fn nth(&self, n: usize) -> Option<Triangle>
        ensures { Nth (holds self.now).list n result };

    // Puts a triangle at the end, into a free place; turned away, with no change, only where no place is free.
    fn put(&mut self, triangle: Triangle) -> Result<(), Full>
        ensures put { Put (holds self.old) triangle result (holds self.new) }
        ensures rest { KeepsRest holds keeps self.old self.new };

    // Makes the list empty; its places are free again, besides those that were.
    fn empty(&mut self)
        ensures emptied { holds self.new ≡ emptied (holds self.old) }
        ensures rest { keeps 0 self.old self.new };
}
