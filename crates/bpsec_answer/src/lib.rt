//! What a run of the program ends with: its status, the line of each refusal, the answer of a job, and how that is
//! delivered.
#![tactic(auto)]

mod answer;
mod delivery;
mod lines;
mod status;

pub use answer::{Answer, Hindrance, refusal};
pub use delivery::deliver;
pub use status::{PiecesReason, Reading, Refused, Status, Writing};
