//! What a command line chooses.
ghost use Rattle.pump.specs.Choices.{Chooses};

use crate::arguments::{Argument, Kind};

/// The pacing layers over a line, the outer one first.
// No list of numbers: with each layer more the line has another type, so each number of layers is a case.
#[derive(Clone, Copy)]
pub enum Layers {
    Bare,
    Once(usize),
    Twice(usize, usize),
}

#[derive(Clone, Copy)]
pub struct Choice {
    pub layers: Layers,
    pub kind: Kind,
    pub piece: usize,
}

/// The choice that the arguments make.
pub fn choose(arguments: &[Argument]) -> Option<Choice>
    ensures { Chooses arguments.now result }
{
    let [layers @ .., Argument::Kind(kind), Argument::Number(piece)] = arguments else {
        return None;
    };
    let layers = match layers {
        [] => Layers::Bare,
        [Argument::Paced, Argument::Number(pace)] => Layers::Once(*pace),
        [
            Argument::Paced,
            Argument::Number(outer),
            Argument::Paced,
            Argument::Number(inner),
        ] => Layers::Twice(*outer, *inner),
        _ => return None,
    };
    Some(Choice {
        layers,
        kind: *kind,
        piece: *piece,
    })
}
