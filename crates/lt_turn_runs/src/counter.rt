ghost use Rattle.std.specs.Prelude.{◌≡◌, ◌+◌, ◌≤◌, ◌^◌, ◌⊎◌, [], ◌∷◌, ◌++◌, List, ℕ, length, IfOk, IfErr};
ghost use Rattle.std.specs.List.{sum};
ghost use Rattle.lt_turn_runs.specs.Counts.{Counts};

use lt_stands::Stands;

/// What was added, and how often. It stands for the list of the amounts that were added.
#[derive(Drop)]
pub struct Counter {
    pub sum: u64,
    pub adds: u64,
}

impl Stands for Counter {
    ghost use Rattle.lt_turn_runs.specs.Counts.{Counts};

    type Entry = u32;

    ghost stands = { λ c list. Counts c.sum c.adds list };

    fn count(&self) -> u64 {
        self.adds
    }
}

impl Counter {
    pub fn new() -> Counter
        ensures { Counts result.sum result.adds [] }
    {
        Counter { sum: 0, adds: 0 }
    }

    /// Adds an amount, unless the sum or the number of adds is as large as can be.
    pub fn with(self, amount: u32) -> Result<Counter, Counter>
        ensures ok { IfOk result (λ c. (list : List ℕ) → Counts self.sum self.adds list → Counts c.sum c.adds (list ++ amount ∷ [])) }
        ensures unchanged { IfErr result (λ c. c ≡ self) }
        ensures full { IfErr result (λ _. (2 ^ 64 ≤ self.sum + amount) ⊎ (2 ^ 64 ≤ self.adds + 1)) }
    {
        match (
            self.sum.checked_add(u64::from(amount)),
            self.adds.checked_add(1),
        ) {
            (Some(sum), Some(adds)) => Ok(Counter { sum, adds }),
            _ => Err(self),
        }
    }
}
