//! Worked examples of the definitions, under a single proof.
#![tactic(auto)]

ghost use Rattle.examples.specs.Examples.{Examples};

/// The definitions give what was worked out by hand. It does nothing; its contract is the examples.
pub fn worked_examples<C, K>()
    ensures examples { Examples C K }
{}
