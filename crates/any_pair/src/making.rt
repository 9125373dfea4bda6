//! How logs and lines are made of memory.
ghost use Rattle.std.specs.Prelude.{◌≡◌, ℕ, ◌+◌, true, ◌⊎◌, min, [], length, replicate};
ghost use Rattle.std.specs.Prelude.{IfOk, MatchResult};
ghost use Rattle.wire.specs.declared.refusals.Refusal.TheVariants as R;
ghost use Rattle.wire.specs.Limits.{packet_limit};
ghost use Rattle.line.specs.Lines.{fresh};
ghost use Rattle.line.specs.Sizes.{LineSize};
ghost use Rattle.logs.specs.Format.{saved as form_of};
ghost use Rattle.logs.specs.Pooled.{makes as pools};
ghost use Rattle.logs.specs.Layout.{makes, journal};
ghost use Rattle.logs.specs.Opening.{Broken, opens};
ghost use Rattle.any_pair.specs.Made.{LogMade, LineMade, LogDenied, LineDenied, Denied, indexed};

use crate::forms::{LineForm, LogForm};
use line::{LARGEST_SIZE, Line};
use lines::{AnyLine, Paced, Ring, Straight};
use logs::{AnyLog, Indexed, JOURNAL_LIMIT, Journal, POOL_LIMIT, TABLE_LIMIT};
use message_log::Log;
use std::alloc::{AllocError, Global};
use wire::Refusal;

// A memory of so many bytes. Of more than a log or line can have there is one more than that, so that it is refused
// by its length.
fn memory(heap: Global, bytes: usize, most: usize) -> Result<Vec<u8>, AllocError>
    ensures { IfOk result (λ v. v.items ≡ replicate (min bytes (most + 1)) 0) }
{
    vec![in heap; 0; bytes.min(most.saturating_add(1))]
}

/// The log of this form.
pub(crate) fn log_of(heap: Global, form: LogForm<'_>) -> Result<AnyLog, Refusal>
    ensures { MatchResult result
        (λ l. LogMade form.entry (⟦<AnyLog as Log>⟧.view l))
        (λ e. LogDenied form.entry e) }
{
    match form {
        LogForm::Journal { bytes } => Ok(AnyLog::Journal(journal_of(heap, bytes)?)),
        LogForm::Indexed { pool, table } => Ok(AnyLog::Indexed(indexed_of(heap, pool, table)?)),
        LogForm::Saved { bytes, saved } => Ok(AnyLog::Journal(opened(heap, bytes, saved)?)),
    }
}

fn journal_of(heap: Global, bytes: usize) -> Result<Journal, Refusal>
    ensures { MatchResult result
        (λ j. ⟦<Journal as Log>⟧.view j ≡ journal bytes 0 [])
        (λ e. Denied (makes bytes ≡ true) e) }
{
    Ok(Journal::new(heap, memory(heap, bytes, JOURNAL_LIMIT)?)?)
}

fn indexed_of(heap: Global, pool: usize, table: usize) -> Result<Indexed, Refusal>
    ensures { MatchResult result
        (λ l. ⟦<Indexed as Log>⟧.view l ≡ indexed pool table)
        (λ e. Denied (pools pool table ≡ true) e) }
{
    let ends = vec![in heap; 0u32; table.min(TABLE_LIMIT + 1)]?;
    Ok(Indexed::new(memory(heap, pool, POOL_LIMIT)?, ends)?)
}

// A journal of so many bytes that holds a saved one. A saved one that is longer is refused by its length.
fn opened(heap: Global, bytes: usize, saved: &[u8]) -> Result<Journal, Refusal>
    ensures { MatchResult result
        (λ j. let l = ⟦<Journal as Log>⟧.view j in
        (l ≡ journal bytes l.session l.messages) × (saved.now ≡ form_of l.session l.messages))
        (λ e. Denied (opens bytes (length saved.now) ≡ true) e
        ⊎ ((place : ℕ) × (e ≡ R.BrokenLog place) × Broken saved.now place)) }
{
    let mut memory = memory(heap, bytes, JOURNAL_LIMIT)?;
    wire::lay(memory.as_mut_slice(), 0, saved);
    Ok(Journal::open(heap, memory, saved.len())?)
}

/// The line of this form.
pub(crate) fn line_of(heap: Global, form: LineForm) -> Result<AnyLine, Refusal>
    ensures { MatchResult result
        (λ l. LineMade form (⟦<AnyLine as Line>⟧.view l))
        (λ e. LineDenied form e) }
{
    match form {
        LineForm::Ring { size } => Ok(AnyLine::Ring(ring_of(heap, size)?)),
        LineForm::Straight { size } => Ok(AnyLine::Straight(straight_of(heap, size)?)),
        LineForm::PacedRing { pace, size } => Ok(AnyLine::PacedRing(Paced::new(
            ring_of(heap, size)?,
            pace,
        )?)),
        LineForm::PacedStraight { pace, size } => Ok(AnyLine::PacedStraight(Paced::new(
            straight_of(heap, size)?,
            pace,
        )?)),
    }
}

fn ring_of(heap: Global, size: usize) -> Result<Ring, Refusal>
    ensures { MatchResult result
        (λ l. ⟦<Ring as Line>⟧.view l ≡ fresh size packet_limit)
        (λ e. Denied (LineSize size) e) }
{
    Ok(Ring::new(memory(heap, size, LARGEST_SIZE)?)?)
}

fn straight_of(heap: Global, size: usize) -> Result<Straight, Refusal>
    ensures { MatchResult result
        (λ l. ⟦<Straight as Line>⟧.view l ≡ fresh size 1)
        (λ e. Denied (LineSize size) e) }
{
    Ok(Straight::new(memory(heap, size, LARGEST_SIZE)?)?)
}
