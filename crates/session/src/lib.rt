// Any list of calls on one scan and some trays, and the laws of what they lay and answer.
#![tactic(auto)]

mod call;
mod laws;
mod number;
mod printing;
mod running;
mod state;
mod step;

pub use call::{Answer, Call, Entry};
pub use laws::bytes_known;
pub use running::run;
pub use state::State;
