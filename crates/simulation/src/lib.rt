//! The simulation: a real fob and a real mixer, driven through calls in any order, and the law that holds of every run.
#![tactic(auto)]

mod packets;
mod passing;
mod record;
mod run;
mod sides;

pub use record::{Entry, Event, Outcome};
pub use run::{Call, Given, Run, simulate};
