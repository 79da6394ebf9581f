//! How much was compared.
ghost use Rattle.std.specs.Prelude.{◌≡◌};
ghost use Rattle.recorded.specs.Tallies.{counted, verdict};

/// How many figures were compared, and how many differ.
#[derive(Clone, Copy, PartialEq, Eq, Debug)]
pub struct Tally {
    pub compared: u32,
    pub wrong: u32,
}

impl Tally {
    /// Nothing was compared yet.
    pub fn new() -> Tally
        ensures value { result ≡ record { compared = 0; wrong = 0 } }
    {
        Tally {
            compared: 0,
            wrong: 0,
        }
    }

    /// Counts a figure, and gives the word for what came of it.
    pub fn count(&mut self, agrees: bool) -> &'static str
        ensures counted { self.new ≡ counted self.old agrees }
        ensures word { result.now ≡ verdict agrees }
    {
        self.compared = self.compared.saturating_add(1);
        if agrees {
            "agrees"
        } else {
            self.wrong = self.wrong.saturating_add(1);
            "DIFFERS"
        }
    }
}
