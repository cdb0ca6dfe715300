// A tray over a list of records: what it holds stands in front.
ghost use Rattle.std.specs.Prelude.{◌≤◌, vec_len};

use crate::triangle::Triangle;

pub mod calls;

// A tray with one place for each record of the list that it is given; triangle n stands in record n.
#[derive(Drop)]
pub struct RecordTray {
    // Whole, with the records behind those that it holds; how many it holds stands beside it.
    list: Vec<Triangle>,
    held: usize,
    ghost within: { held ≤ vec_len list },
}
