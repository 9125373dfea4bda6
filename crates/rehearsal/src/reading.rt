//! From a line to the command that it asks for.
ghost use Rattle.std.specs.Prelude.{ℕ, IfOk, IfErr, IfSome};
ghost use Rattle.rehearsal.specs.Lines.{word, Hexadecimal, Numeral, NumeralUpTo};
ghost use Rattle.rehearsal.specs.Lines.{longest_buffer, most_ticks, LogWords, LineWords, TextWords};
ghost use Rattle.rehearsal.specs.Lines.{PartLine, EndWord, QuestionLine, CallLine, ActionLine};
ghost use Rattle.rehearsal.specs.Lines.{CommandLine};

use crate::commands::{Action, Command, Question};
use crate::troubles::Malformed;
use any_pair::{End, LineForm, LogForm, Part, Side};
use hex::FromHexError;
use pair::AccountTexts;
use relay::{Call, Way};
use rules::How;
use std::alloc::{AllocError, Global};

/// The most ticks that one line asks for.
const MOST_TICKS: u64 = 1_000_000;

/// The longest buffer that a line asks for.
const LONGEST_BUFFER: usize = 16_777_216;

/// The words of a line, and the bytes that the second one writes, if it writes any.
#[derive(Drop)]
pub struct Words<'a> {
    pub words: Vec<&'a str>,
    pub bytes: Option<Vec<u8>>,
}

impl<'a> Words<'a> {
    /// The words of a line.
    pub fn of(heap: Global, line: &'a str) -> Result<Words<'a>, AllocError>
        ensures { IfOk result
            (λ w. IfSome w.bytes (λ v. Hexadecimal (word w.words.items 1) v.items)) }
    {
        let words: Vec<&'a str> = line.split_whitespace().collect(heap)?;
        let bytes = match words.as_slice() {
            [_, word, ..] => bytes_of(heap, word)?,
            _ => None,
        };
        Ok(Words { words, bytes })
    }
}

// The bytes that a word writes in pairs of hexadecimal digits, `-` for none.
fn bytes_of(heap: Global, word: &str) -> Result<Option<Vec<u8>>, AllocError>
    ensures { IfOk result (λ bytes. IfSome bytes (λ v. Hexadecimal word.now v.items)) }
{
    if word == "-" {
        return Ok(Some(Vec::new(heap)));
    }
    match hex::decode(heap, word.as_bytes()) {
        Ok(bytes) => Ok(Some(bytes)),
        Err(FromHexError::OutOfMemory) => Err(AllocError),
        Err(_) => Ok(None),
    }
}

/// Whether a line is passed over: one without a word, or with `#` at its front.
pub fn is_passed_over(words: &[&str]) -> bool {
    match words {
        [] => true,
        [first, ..] => matches!(first.as_bytes(), [b'#', ..]),
    }
}

/// The command of these words, of which the second may write bytes.
pub fn command_of<'a>(words: &[&'a str], bytes: Option<&'a [u8]>) -> Result<Command<'a>, Malformed>
    ensures { IfOk result (λ command. CommandLine words.now bytes.entry command) }
{
    match words {
        ["setup"] => Ok(Command::SetUp),
        ["hub-log", "open", bytes, file] => Ok(Command::Open {
            end: End::Hub,
            bytes: size_of(bytes)?,
            file,
        }),
        ["seat-log", "open", bytes, file] => Ok(Command::Open {
            end: End::Seat,
            bytes: size_of(bytes)?,
            file,
        }),
        [
            "hub-log" | "seat-log" | "up" | "down" | "account" | "seat" | "buffers",
            ..
        ] => Ok(Command::Part(part_of(words)?)),
        ["show" | "wire" | "log" | "out" | "save", ..] => Ok(Command::Question(question_of(
            words,
        )?)),
        _ => Ok(Command::Action(action_of(words, bytes)?)),
    }
}

fn number_of(word: &str) -> Result<u64, Malformed>
    ensures is { IfOk result (λ n. Numeral word.now n) }
    ensures no_other { IfErr result (λ _. (n : ℕ) → Numeral word.now n → ⊥) }
{
    word.parse().map_err(|_| Malformed::NoNumber)
}

fn size_of(word: &str) -> Result<usize, Malformed>
    ensures is { IfOk result (λ n. Numeral word.now n) }
    ensures no_other { IfErr result (λ _. (n : ℕ) → Numeral word.now n → ⊥) }
{
    word.parse().map_err(|_| Malformed::NoNumber)
}

fn part_of<'a>(words: &[&'a str]) -> Result<Part<'a>, Malformed>
    ensures { IfOk result (λ part. PartLine words.now part) }
{
    match words {
        ["hub-log", form @ ..] => Ok(Part::Log(End::Hub, log_form(form)?)),
        ["seat-log", form @ ..] => Ok(Part::Log(End::Seat, log_form(form)?)),
        ["up", form @ ..] => Ok(Part::Line(Side::Up, line_form(form)?)),
        ["down", form @ ..] => Ok(Part::Line(Side::Down, line_form(form)?)),
        ["account", texts @ ..] => Ok(Part::Account(texts_of(texts)?)),
        ["seat", texts @ ..] => Ok(Part::Seat(texts_of(texts)?)),
        ["buffers", hub, seat, out] => Ok(Part::Buffers {
            hub: length_of(hub)?,
            seat: length_of(seat)?,
            out: length_of(out)?,
        }),
        _ => Err(Malformed::NoCommand),
    }
}

fn log_form(words: &[&str]) -> Result<LogForm<'static>, Malformed>
    ensures is { IfOk result (λ form. LogWords words.now form) }
    ensures no_other { IfErr result (λ _. (form : LogForm) → LogWords words.now form → ⊥) }
{
    match words {
        ["journal", bytes] => Ok(LogForm::Journal {
            bytes: size_of(bytes)?,
        }),
        ["indexed", pool, table] => Ok(LogForm::Indexed {
            pool: size_of(pool)?,
            table: size_of(table)?,
        }),
        _ => Err(Malformed::NoCommand),
    }
}

fn line_form(words: &[&str]) -> Result<LineForm, Malformed>
    ensures is { IfOk result (λ form. LineWords words.now form) }
    ensures no_other { IfErr result (λ _. (form : LineForm) → LineWords words.now form → ⊥) }
{
    match words {
        ["ring", size] => Ok(LineForm::Ring {
            size: size_of(size)?,
        }),
        ["straight", size] => Ok(LineForm::Straight {
            size: size_of(size)?,
        }),
        ["paced", pace, "ring", size] => Ok(LineForm::PacedRing {
            pace: size_of(pace)?,
            size: size_of(size)?,
        }),
        ["paced", pace, "straight", size] => Ok(LineForm::PacedStraight {
            pace: size_of(pace)?,
            size: size_of(size)?,
        }),
        _ => Err(Malformed::NoCommand),
    }
}

fn texts_of<'a>(words: &[&'a str]) -> Result<AccountTexts<'a>, Malformed>
    ensures is { IfOk result (λ texts. TextWords words.now texts) }
    ensures no_other { IfErr result (λ _. (texts : AccountTexts) → TextWords words.now texts → ⊥) }
{
    let [user, computer, protocol] = words else {
        return Err(Malformed::NoCommand);
    };
    Ok(AccountTexts {
        user: user.as_bytes(),
        computer: computer.as_bytes(),
        protocol: protocol.as_bytes(),
    })
}

// The length of a buffer.
fn length_of(word: &str) -> Result<usize, Malformed>
    ensures is { IfOk result (λ n. NumeralUpTo longest_buffer word.now n) }
    ensures no_other { IfErr result (λ _. (n : ℕ) → NumeralUpTo longest_buffer word.now n → ⊥) }
{
    let length = size_of(word)?;
    if length > LONGEST_BUFFER {
        return Err(Malformed::NoNumber);
    }
    Ok(length)
}

fn question_of<'a>(words: &[&'a str]) -> Result<Question<'a>, Malformed>
    ensures is { IfOk result (λ question. QuestionLine words.now question) }
    ensures no_other { IfErr result
        (λ _. (question : Question) → QuestionLine words.now question → ⊥) }
{
    match words {
        ["show"] => Ok(Question::Pair),
        ["wire"] => Ok(Question::Wire),
        ["log", end] => Ok(Question::Log(end_of(end)?)),
        ["out", count] => Ok(Question::Out(size_of(count)?)),
        ["save", end, file] => Ok(Question::Save(end_of(end)?, file)),
        _ => Err(Malformed::NoCommand),
    }
}

fn end_of(word: &str) -> Result<End, Malformed>
    ensures is { IfOk result (λ end. EndWord word.now end) }
    ensures no_other { IfErr result (λ _. (end : End) → EndWord word.now end → ⊥) }
{
    match word {
        "hub" => Ok(End::Hub),
        "seat" => Ok(End::Seat),
        _ => Err(Malformed::NoCommand),
    }
}

fn action_of<'a>(words: &[&'a str], bytes: Option<&'a [u8]>) -> Result<Action<'a>, Malformed>
    ensures { IfOk result (λ action. ActionLine words.now bytes.entry action) }
{
    match words {
        ["tick", count] => Ok(Action::Ticks(ticks_of(count)?)),
        ["level", "join"] => Ok(Action::Level(Way::Join)),
        ["level", "anew"] => Ok(Action::Level(Way::Anew)),
        ["put-up", _] => Ok(Action::Stranger(Side::Up, bytes.ok_or(Malformed::NoBytes)?)),
        ["put-down", _] => Ok(Action::Stranger(Side::Down, bytes.ok_or(Malformed::NoBytes)?)),
        ["publish", _] => Ok(Action::Call(Call::Publish(bytes.ok_or(Malformed::NoBytes)?))),
        ["tell", _] => Ok(Action::Call(Call::Tell(bytes.ok_or(Malformed::NoBytes)?))),
        ["say", _] => Ok(Action::Call(Call::Say(bytes.ok_or(Malformed::NoBytes)?))),
        _ => Ok(Action::Call(call_of(words)?)),
    }
}

fn ticks_of(word: &str) -> Result<u64, Malformed>
    ensures is { IfOk result (λ n. NumeralUpTo most_ticks word.now n) }
    ensures no_other { IfErr result (λ _. (n : ℕ) → NumeralUpTo most_ticks word.now n → ⊥) }
{
    let count = number_of(word)?;
    if count > MOST_TICKS {
        return Err(Malformed::NoNumber);
    }
    Ok(count)
}

fn call_of<'a>(words: &[&'a str]) -> Result<Call<'a>, Malformed>
    ensures is { IfOk result (λ call. CallLine words.now call) }
    ensures no_other { IfErr result (λ _. (call : Call) → CallLine words.now call → ⊥) }
{
    match words {
        ["connect", "join"] => Ok(Call::Connect(How::Join)),
        ["connect", "anew"] => Ok(Call::Connect(How::Anew)),
        ["connect", "fetch", end] => Ok(Call::Connect(How::Fetch(number_of(end)?))),
        ["cut"] => Ok(Call::Cut),
        ["finish"] => Ok(Call::Finish),
        ["roll"] => Ok(Call::Roll),
        ["leave"] => Ok(Call::Leave),
        ["hub-receive"] => Ok(Call::HubReceive),
        ["seat-receive"] => Ok(Call::SeatReceive),
        ["hub-send"] => Ok(Call::HubSend),
        ["seat-send"] => Ok(Call::SeatSend),
        ["tick"] => Ok(Call::Tick),
        ["round"] => Ok(Call::Round),
        _ => Err(Malformed::NoCommand),
    }
}
