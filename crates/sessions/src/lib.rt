//! Sessions over an air that alters nothing: a fob and a mixer that are given each other's messages open, and pass payloads.
#![tactic(auto)]

mod handshake;
mod unaltered;

pub use handshake::{Start, Unopened, open_both};
pub use unaltered::{Closed, Ended, Pair, pass_one, run_unaltered};
