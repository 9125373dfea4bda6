//! How far a rehearsal is, and what its commands do.
ghost use Rattle.std.specs.Prelude.{◌≡◌, ◌<◌, ◌≤◌, ◌⊎◌, IfOk, IsSomeAnd, MatchResult};
ghost use Rattle.std.specs.Prelude.{None, Some, length, take};
ghost use Rattle.line.specs.Lines.{LineView};
ghost use Rattle.logs.specs.Format.{saved};
ghost use Rattle.rehearsal.specs.declared.troubles.Malformed.TheVariants as M;
ghost use Rattle.rehearsal.specs.Counting.{counted};
ghost use Rattle.rehearsal.specs.Actions.{PerformsAction, Ticks, refusal_in, without_login};
ghost use Rattle.rehearsal.specs.Stages.{Fresh, MakesPart, SetsUp, LinesAt, log_at, out_at};

use crate::commands::Action;
use crate::sums::Sums;
use crate::troubles::{Malformed, Trouble};
use any_pair::{AnyPair, Builder, End, Part};
use line::Line;
use lines::{AnyLine, CountedLine};
use logs::AnyLog;
use message_log::Log;
use relay::{Answer, Call};
use std::alloc::{AllocError, Global};
use std::mem;
use wire::{Refusal, Status};

/// How far a rehearsal is.
#[derive(Drop)]
pub enum Stage {
    /// The parts are made.
    Building(Builder),
    /// The pair is set up, and calls are performed on it.
    Running(AnyPair),
}

impl Stage {
    /// Before the first part is made.
    pub fn new(heap: Global) -> Result<Stage, AllocError>
        ensures { IfOk result (λ stage. Fresh stage) }
    {
        Ok(Stage::Building(Builder::new(heap)?))
    }

    /// Makes a part, as long as there is no pair.
    pub fn make(&mut self, heap: Global, part: Part<'_>) -> Result<(), Trouble>
        ensures { MakesPart ⟦<AnyLine as Line>⟧.view part.entry self.old result self.new }
    {
        match self {
            Stage::Building(parts) => parts.make(heap, part).map_err(Trouble::Refused),
            Stage::Running(_) => Err(Trouble::Malformed(Malformed::SetUp)),
        }
    }

    /// Sets the pair up of the parts that were made.
    pub fn set_up(&mut self, heap: Global) -> Result<(), Trouble>
        ensures { SetsUp ⟦<AnyLine as Line>⟧.view self.old result self.new }
    {
        let stage = mem::replace(self, Stage::Building(Builder::none(heap)));
        let (stage, answer) = stage.paired();
        *self = stage;
        answer
    }

    /// Does something to the pair, and counts it.
    pub fn perform(&mut self, action: Action<'_>, sums: &mut Sums) -> Result<Answer, Malformed>
        ensures { PerformsAction self.old sums.old action.entry result self.new sums.new }
    {
        let Stage::Running(pair) = self else {
            return Err(Malformed::NotSetUp);
        };
        match action {
            Action::Call(call) => Ok(noted(sums, pair.perform(call))),
            Action::Ticks(count) => Ok(tick(sums, pair, count)),
            Action::Level(way) => Ok(noted(sums, Answer::Done(done(pair.bring_level(way))))),
            Action::Stranger(side, bytes) => Ok(Answer::Done(pair.inject(side, bytes))),
        }
    }

    // Set up, if all parts are made and nothing is refused.
    fn paired(self) -> (Stage, Result<(), Trouble>)
        ensures { SetsUp ⟦<AnyLine as Line>⟧.view self result.1 result.0 }
    {
        let builder = match self {
            Stage::Building(builder) => builder,
            running => return (running, Err(Trouble::Malformed(Malformed::SetUp))),
        };
        match builder.into_parts() {
            Ok(parts) => match AnyPair::set_up(parts) {
                Ok(pair) => (Stage::Running(pair), Ok(())),
                Err(unmade) => (
                    Stage::Building(Builder::from(unmade.given)),
                    Err(Trouble::Refused(unmade.refusal)),
                ),
            },
            Err(builder) => (
                Stage::Building(builder),
                Err(Trouble::Malformed(Malformed::NotMade)),
            ),
        }
    }

    /// The two lines, if both are made.
    pub fn lines(&self) -> Result<(&CountedLine<AnyLine>, &CountedLine<AnyLine>), Malformed>
        ensures { let means = ⟦<AnyLine as Line>⟧.view in
            let counted = ⟦<CountedLine<AnyLine> as Line>⟧.view in
            MatchResult result
            (λ lines. LinesAt means self.now (counted lines.0.now) (counted lines.1.now))
            (λ e. (e ≡ M.NotMade) × ((up down : LineView) → LinesAt means self.now up down → ⊥)) }
    {
        match self {
            Stage::Building(
                Builder {
                    up: Some(up),
                    down: Some(down),
                    ..
                },
            ) => Ok((up, down)),
            Stage::Building(_) => Err(Malformed::NotMade),
            Stage::Running(pair) => Ok((&pair.owned.up, &pair.owned.down)),
        }
    }

    /// The log of an end, if it is made.
    pub fn log(&self, end: End) -> Result<&AnyLog, Malformed>
        ensures { MatchResult result
            (λ log. log_at self.now end ≡ Some (⟦<AnyLog as Log>⟧.view log.now))
            (λ e. (e ≡ M.NotMade) × (log_at self.now end ≡ None)) }
    {
        match (self, end) {
            (Stage::Building(parts), End::Hub) => parts.hub_log.as_ref().ok_or(Malformed::NotMade),
            (Stage::Building(parts), End::Seat) => parts
                .seat_log
                .as_ref()
                .ok_or(Malformed::NotMade),
            (Stage::Running(pair), End::Hub) => Ok(&pair.owned.hub_log),
            (Stage::Running(pair), End::Seat) => Ok(&pair.owned.seat_log),
        }
    }

    /// The first bytes of the outgoing buffer.
    pub fn out(&self, count: usize) -> Result<&[u8], Malformed>
        ensures { let out = out_at self.now in
            MatchResult result
            (λ bytes. (count ≤ length out) × (bytes.now ≡ take count out))
            (λ e. (e ≡ M.PastTheBuffer) × (length out < count)) }
    {
        let buffers = match self {
            Stage::Building(parts) => &parts.buffers,
            Stage::Running(pair) => &pair.owned.buffers,
        };
        buffers.out.get(..count).ok_or(Malformed::PastTheBuffer)
    }

    /// The saved form of an end's log.
    pub fn saved(&self, end: End) -> Result<&[u8], Malformed>
        ensures { let log = log_at self.now end in
            MatchResult result
            (λ bytes. IsSomeAnd log (λ l. bytes.now ≡ saved l.session l.messages))
            (λ e. ((e ≡ M.NotMade) × (log ≡ None)) ⊎ (e ≡ M.NotSaved)) }
    {
        match self.log(end)? {
            AnyLog::Journal(journal) => Ok(journal.bytes()),
            AnyLog::Indexed(_) => Err(Malformed::NotSaved),
        }
    }
}

// What a bring-level answered, without what became of the login.
fn done(level: Result<Option<Status>, Refusal>) -> Result<(), Refusal>
    ensures { result ≡ without_login level }
{
    match level {
        Ok(_) => Ok(()),
        Err(refusal) => Err(refusal),
    }
}

// A call's answer, after it was counted.
fn noted(sums: &mut Sums, answer: Answer) -> Answer
    ensures same { result ≡ answer }
    ensures count { sums.new ≡ counted sums.old (refusal_in answer) }
{
    sums.note(refusal_of(&answer));
    answer
}

// Why a call was refused, if it was.
fn refusal_of(answer: &Answer) -> Option<Refusal>
    ensures { result ≡ refusal_in answer.now }
{
    match answer {
        Answer::Done(Err(refusal))
        | Answer::Received(Err(refusal))
        | Answer::Sent(Err(refusal))
        | Answer::Round(Err(refusal)) => Some(*refusal),
        _ => None,
    }
}

// So many ticks, as long as none is refused.
fn tick(sums: &mut Sums, pair: &mut AnyPair, count: u64) -> Answer
    ensures { Ticks pair.old.pair sums.old count result pair.new.pair sums.new }
{
    for _ in 0..count {
        let answer = noted(sums, pair.perform(Call::Tick));
        if refusal_of(&answer).is_some() {
            return answer;
        }
    }
    Answer::Done(Ok(()))
}
