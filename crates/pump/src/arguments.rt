//! The arguments of the command line.
ghost use Rattle.pump.specs.Arguments.{Spells};

#[derive(Clone, Copy)]
pub enum Kind {
    Ring,
    Straight,
}

#[derive(Clone, Copy)]
pub enum Argument {
    Paced,
    Kind(Kind),
    Number(usize),
    Other,
}

/// The word that a text spells.
pub fn argument_of(text: &str) -> Argument
    ensures { Spells text.now result }
{
    match text {
        "paced" => Argument::Paced,
        "ring" => Argument::Kind(Kind::Ring),
        "straight" => Argument::Kind(Kind::Straight),
        _ => text.parse().map_or(Argument::Other, Argument::Number),
    }
}
