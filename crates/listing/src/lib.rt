// The lines that the program reads and writes.
#![tactic(auto)]

mod closing_lines;
mod closing_off;
mod drawing_out;
mod fields;
mod header;
mod input;
mod laws;
mod line;
mod number;
mod outcome;
mod output;
mod pieces;
mod reading;
mod readings;
mod rows;
mod run_error;
mod running;
mod unread;
mod writing;

pub use closing_lines::{end_line, refusal_line};
pub use header::Header;
pub use input::{Input, read};
pub use laws::cut_once;
pub use outcome::Outcome;
pub use output::{Output, listing};
pub use run_error::RunError;
pub use running::run;
pub use unread::Unread;
