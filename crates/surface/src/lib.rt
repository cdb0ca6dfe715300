// The triangles of the first n cubes of a scan, and the laws of these, for every scan, pair and n.
// There is nothing to compute here: each function carries one law on its contract.
#![tactic(auto)]

mod laws;

pub use laws::{
    all_cornered, all_joined, all_placed, all_whole, closed, laid_by_rule, laid_once, mirrored,
    open_at_front, samples,
};
