//! The promises of a pair, proved of every run of its rules.
//!
//! A **run** is a list of calls on a pair that was set up, each granted or refused. The **book** goes along with
//! it: it begins with the log of a hub that was just set up, hears of each call its message and its answer, and keeps
//! what was published in each session. The three promises are laws over runs (`specs/Promises.antt`), and so is
//! when synchronization complete goes out (`specs/Completes.antt`); the functions of this crate do nothing, and each
//! carries one of them as its contract.
//!
//! Left out: the code of the ends. What is proved here is proved of the rules in the crate `rules`.
#![tactic(auto)]

ghost use Rattle.rules.specs.Rounds.{Step};
ghost use Rattle.promises.specs.Completes.{CompleteOnce, CompleteAfterAll};
ghost use Rattle.promises.specs.Promises.{NeverWrong, NeverShorter, CatchesUp, CanCatchUp, InStepIsTrue, SetUpBegins};

/// After every run the seat's log is a prefix of what was published in the session that it bears.
pub fn the_seat_is_never_wrong()
    ensures { NeverWrong Step }
{}

/// Along a run the seat's log keeps all that it held, as long as it bears that session.
pub fn the_seat_never_loses()
    ensures { NeverShorter Step }
{}

/// After every run, then a connect by join or anew whose login is accepted, then h − q + 2 granted rounds, the seat's
/// log is the hub's; and so many granted rounds can be made.
pub fn the_seat_catches_up()
    ensures level { CatchesUp Step }
    ensures can { CanCatchUp Step }
{}

/// A seat that reports itself in step holds all that was published when the hub send or round began that wrote the
/// packet which told it so.
pub fn in_step_is_true()
    ensures { InStepIsTrue Step }
{}

/// Set-up, of logs that keep their law and of steady lines, makes a pair of which the promises speak.
pub fn set_up_begins_a_history()
    ensures { SetUpBegins }
{}

/// Synchronization complete goes out at most once a connection, and only after every message that the hub then holds,
/// from the number that the login asked for.
pub fn complete_comes_once_and_after_all()
    ensures once { CompleteOnce Step }
    ensures after_all { CompleteAfterAll Step }
{}
