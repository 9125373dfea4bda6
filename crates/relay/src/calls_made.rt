//! Which calls were made, for proofs alone.
ghost use Rattle.std.specs.Prelude.{◌≡◌, List, [], ◌∷◌, ◌++◌};
ghost use Rattle.std.specs.Borrow.{ftrue};
ghost use Rattle.rules.specs.Rounds as R;
ghost use Rattle.rules.specs.declared.answers.Answer as A;

use crate::commands::Call;
use rules::Answer;
use std::marker::{Model, PhantomData};

/// The calls that were made, in order, each with its answer. It takes no memory, and its methods do nothing when a
/// program runs: only proofs read the list.
#[derive(Drop)]
pub struct CallsMade {
    of: PhantomData<()>,
    pub ghost list: { List (R.Call × A.Answer) },
}

impl Model for CallsMade {
    ghost also_owns = { λ _. ftrue };
}

impl CallsMade {
    /// No call.
    pub fn new() -> CallsMade
        ensures { result.list ≡ [] }
    {
        CallsMade { of: PhantomData }
    }

    ghost use Rattle.relay.specs.Calls.{call_of};

    /// One call more.
    pub fn and(&self, call: &Call<'_>, answer: &Answer) -> CallsMade
        ensures { result.list ≡ self.now.list ++ (call_of call.now, answer.now) ∷ [] }
    {
        CallsMade { of: PhantomData }
    }
}
