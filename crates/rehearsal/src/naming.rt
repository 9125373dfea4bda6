//! Names of phases, and letters as they are printed.
use rules::{HubPhase, SeatPhase};
use wire::{Letter, Status};

/// The letter as it is printed.
pub(crate) fn letter_of(letter: Letter) -> char {
    char::from(u8::from(letter))
}

/// The letter of a status that was kept, `-` for none.
pub(crate) fn status_of(status: Option<Status>) -> char {
    match status {
        Some(status) => char::from(u8::from(status)),
        None => '-',
    }
}

/// The name of a hub's phase.
pub(crate) fn hub_phase(phase: HubPhase) -> &'static str {
    match phase {
        HubPhase::Shut => "Shut",
        HubPhase::Waiting => "Waiting",
        HubPhase::Answering { .. } => "Answering",
        HubPhase::Rejecting { .. } => "Rejecting",
        HubPhase::Serving { .. } => "Serving",
        HubPhase::Filling { .. } => "Filling",
    }
}

/// The name of a seat's phase.
pub(crate) fn seat_phase(phase: SeatPhase) -> &'static str {
    match phase {
        SeatPhase::Apart => "Apart",
        SeatPhase::Asking => "Asking",
        SeatPhase::Live => "Live",
    }
}
