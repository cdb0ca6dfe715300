// Where the corners of a surface lie: the fraction of the way along a link, and the point.
#![tactic(auto)]

mod coordinate;
mod corner;
mod ends;
mod fraction;
mod level;
mod placing;
mod point;
mod refusal;
#[cfg(test)]
mod tests;
mod worked;

pub use corner::{Corner, Place};
pub use placing::place;
pub use point::Point;
pub use refusal::PlaceRefusal;
pub use worked::samples;
