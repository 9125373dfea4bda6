//! The words of a line.
ghost use Rattle.std.specs.Prelude.{◌≡◌};
ghost use Rattle.logins.specs.Tokens.{Names, Writes};

/// The words that begin a line.
#[derive(Clone, Copy)]
pub enum Verb {
    Account,
    Hub,
    Login,
    Logout,
}

/// A word: its text, and the verb and the number that the text writes, if it does.
#[derive(Clone, Copy)]
pub struct Token<'a> {
    pub text: &'a [u8],
    pub verb: Option<Verb>,
    pub number: Option<u64>,
}

/// The word that a text is.
pub fn token_of(text: &str) -> Token<'_>
    ensures text { result.text.now ≡ text.now }
    ensures verb { Names text.now result.verb }
    ensures number { Writes text.now result.number }
{
    Token {
        text: text.as_bytes(),
        verb: verb_of(text),
        number: number_of(text),
    }
}

fn verb_of(text: &str) -> Option<Verb>
    ensures { Names text.now result }
{
    match text {
        "account" => Some(Verb::Account),
        "hub" => Some(Verb::Hub),
        "login" => Some(Verb::Login),
        "logout" => Some(Verb::Logout),
        _ => None,
    }
}

fn number_of(text: &str) -> Option<u64>
    ensures { Writes text.now result }
{
    text.parse().ok()
}
