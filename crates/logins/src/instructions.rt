//! The instruction that the words of a line write.
ghost use Rattle.std.specs.Prelude.{◌≡◌};
ghost use Rattle.logins.specs.Instructions.{passed_over, said, read_of, verb_line, account_line, hub_line, login_line, logout_line, byte_of};
ghost use Rattle.logins.specs.declared.instructions.BadLine.TheVariants.{BadField};

use crate::tokens::{Token, Verb};
use account::{Account, padded};
use thiserror::Error;
use wire::Refusal;

/// What a line asks for.
#[derive(Clone, Copy)]
pub enum Instruction<'a> {
    /// An account to be added. Its fields are not judged yet.
    Account {
        user: &'a [u8],
        computer: &'a [u8],
        protocol: &'a [u8],
    },
    /// The session and the highest number of the hub's log.
    Hub {
        session: u8,
        highest: u64,
    },
    /// A login request. Its texts are padded.
    Login {
        version: [u8; 5],
        account: Account,
        session: u8,
        number: u64,
    },
    /// The end of a login. Its texts are padded.
    Logout {
        user: [u8; 5],
        computer: [u8; 8],
    },
}

/// Why a line writes no instruction.
#[derive(Clone, Copy, PartialEq, Eq, Debug, Error)]
pub enum BadLine {
    /// The first word is no verb.
    #[error("the first word is not account, hub, login or logout")]
    NoVerb,
    /// The verb takes another number of words.
    #[error("another number of words is wanted")]
    WordCount,
    /// A word should be a number, and is none or too large.
    #[error("a word should be a number, and is none or too large")]
    NoNumber,
    /// A text cannot stand in its field.
    #[error("a text is too wide or not visible ASCII")]
    BadField,
}

/// Whether a line is passed over: a blank one, or one that begins with `#`.
pub fn is_passed_over(words: &[Token<'_>]) -> bool
    ensures { result ≡ passed_over words.now }
{
    match words {
        [] => true,
        [first, ..] => matches!(first.text, [b'#', ..]),
    }
}

// Written out and not derived: the contracts say which case `?` makes.
impl From<Refusal> for BadLine {
    ghost from_gives = { λ _ r. r ≡ BadField };

    fn from(_refusal: Refusal) -> BadLine {
        BadLine::BadField
    }
}

/// The instruction that the words of a line write.
pub fn read<'a>(words: &[Token<'a>]) -> Result<Instruction<'a>, BadLine>
    ensures { said result ≡ read_of words.now }
{
    let [first, rest @ ..] = words else {
        return Err(BadLine::NoVerb);
    };
    arguments(first.verb, rest)
}

/// The instruction of a verb and the words behind it.
fn arguments<'a>(verb: Option<Verb>, rest: &[Token<'a>]) -> Result<Instruction<'a>, BadLine>
    ensures { said result ≡ verb_line verb rest.now }
{
    match verb {
        Some(Verb::Account) => account_line(rest),
        Some(Verb::Hub) => hub_line(rest),
        Some(Verb::Login) => login_line(rest),
        Some(Verb::Logout) => logout_line(rest),
        None => Err(BadLine::NoVerb),
    }
}

fn account_line<'a>(words: &[Token<'a>]) -> Result<Instruction<'a>, BadLine>
    ensures { said result ≡ account_line words.now }
{
    let [user, computer, protocol] = words else {
        return Err(BadLine::WordCount);
    };
    Ok(Instruction::Account {
        user: user.text,
        computer: computer.text,
        protocol: protocol.text,
    })
}

fn hub_line<'a>(words: &[Token<'a>]) -> Result<Instruction<'a>, BadLine>
    ensures { said result ≡ hub_line words.now }
{
    let [session, highest] = words else {
        return Err(BadLine::WordCount);
    };
    Ok(Instruction::Hub {
        session: byte_of(session.number).ok_or(BadLine::NoNumber)?,
        highest: highest.number.ok_or(BadLine::NoNumber)?,
    })
}

fn login_line<'a>(words: &[Token<'a>]) -> Result<Instruction<'a>, BadLine>
    ensures { said result ≡ login_line words.now }
{
    let [version, user, computer, protocol, session, number] = words else {
        return Err(BadLine::WordCount);
    };
    Ok(Instruction::Login {
        version: padded(version.text)?,
        account: Account::new(user.text, computer.text, protocol.text)?,
        session: byte_of(session.number).ok_or(BadLine::NoNumber)?,
        number: number.number.ok_or(BadLine::NoNumber)?,
    })
}

fn logout_line<'a>(words: &[Token<'a>]) -> Result<Instruction<'a>, BadLine>
    ensures { said result ≡ logout_line words.now }
{
    let [user, computer] = words else {
        return Err(BadLine::WordCount);
    };
    Ok(Instruction::Logout {
        user: padded(user.text)?,
        computer: padded(computer.text)?,
    })
}

/// A number that fits a byte.
fn byte_of(number: Option<u64>) -> Option<u8>
    ensures { result ≡ byte_of number }
{
    u8::try_from(number?).ok()
}
