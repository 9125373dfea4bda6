//! What a rehearsal's calls come to.
ghost use Rattle.std.specs.Prelude.{◌≡◌};
ghost use Rattle.rehearsal.specs.Counting.{counted, uncounted};

use wire::Refusal;

/// The numbers of refusals are below this.
const NUMBERS: usize = 32;

/// How many calls there were, and how many were refused, by number.
#[derive(Clone, Copy)]
pub struct Sums {
    pub calls: u64,
    pub refused: u64,
    pub by_number: [u64; NUMBERS],
}

impl Sums {
    /// No call yet.
    pub fn new() -> Sums
        ensures { result ≡ uncounted }
    {
        Sums {
            calls: 0,
            refused: 0,
            by_number: [0; NUMBERS],
        }
    }

    /// One call more, and its refusal if it was refused.
    #[tactic(auto, using(crate::proofs::Numbers::number_below))]
    pub fn note(&mut self, refusal: Option<Refusal>)
        ensures { self.new ≡ counted self.old refusal }
    {
        self.calls = self.calls.saturating_add(1);
        if let Some(refusal) = refusal {
            self.refused = self.refused.saturating_add(1);
            let number = usize::from(refusal.number());
            self.by_number[number] = self.by_number[number].saturating_add(1);
        }
    }
}
