//! Whole sessions of an independent implementation as text, one figure a line, and the tally of what agrees with them.
//!
//! An empty line, and one whose first word begins with `#`, holds nothing.
#![tactic(auto)]

mod key;
mod line;
mod session;
mod tally;
#[cfg(test)]
mod tests;
mod words;

pub use key::OwnKey;
pub use line::{Derived, Handshake, Line, parse_line, parse_named};
pub use session::{Packet, Session};
pub use tally::Tally;
pub use words::{Problem, Stop, Suite, fixed, octets, part};
