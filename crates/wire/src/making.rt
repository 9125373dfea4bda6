//! Makings: what a refused one answers, and what is allowed.
ghost use Rattle.std.specs.Prelude.{◌≡◌, IsTrue};
ghost use Rattle.wire.specs.Making.{Makes};

use crate::refusals::Refusal;

/// Why something was not made, and what was given for it, unchanged.
#[derive(Drop)]
pub struct Unmade<G> {
    pub refusal: Refusal,
    pub given: G,
}

// Written out and not derived, as the others: contracts say which refusal `?` makes.
/// Lets `?` pass on the refusal alone; what was given is let go.
impl<G: Drop> From<Unmade<G>> for Refusal {
    ghost from_gives = { λ u r. r ≡ u.refusal };

    fn from(unmade: Unmade<G>) -> Refusal {
        unmade.refusal
    }
}

/// What was given, if its numbers are allowed, and otherwise the refusal for sizes, with what was given.
pub fn allow<G>(allowed: bool, given: G) -> Result<G, Unmade<G>>
    ensures { Makes (IsTrue allowed) (λ g. g ≡ given) given result }
{
    if allowed {
        Ok(given)
    } else {
        Err(Unmade {
            refusal: Refusal::SizeOutOfRange,
            given,
        })
    }
}
