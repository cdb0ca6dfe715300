// Drawings of scans: opening, drawing on, closing, and the report.
#![tactic(auto)]

mod asked;
mod asking;
mod border;
mod closed;
mod closing;
mod cube_at;
mod cubes_left;
mod draw;
mod drawing;
mod laying;
mod letter;
mod opening;
mod progress;
mod reading;
mod refusal;
mod report;
mod stretch;
mod unfinished;

pub use asked::Asked;
pub use border::{kind_at, lowest_unlike};
pub use closed::Closed;
pub use cubes_left::CubesLeft;
pub use drawing::Drawing;
pub use letter::{Letter, SolidTest};
pub use progress::{DrawRefusal, Ending, Progress};
pub use reading::cube_mask;
pub use refusal::OpenRefusal;
pub use report::Report;
pub use unfinished::Unfinished;
