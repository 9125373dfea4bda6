//! The worked examples of every layer, by one theorem over their list.
//!
//! Left out: the examples themselves, which stand with their layers (`specs/Examples.antt` of `packet`, of `journal`
//! and of `account`).
ghost use Rattle.unit_tests.specs.Worked.{WorkedExamplesHold};

/// Every worked example holds of the definitions that the contracts cite.
pub fn worked_examples_hold()
    ensures { WorkedExamplesHold }
{
    packet::laws::examples_hold();
    logs::journal_laws::examples_hold();
    account::laws::examples_hold();
}
