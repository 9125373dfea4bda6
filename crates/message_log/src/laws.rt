//! What the answers of a log say in the words of a log.
ghost use Rattle.message_log.specs.Laws.{TakenJustWhen, RefusedInOrder, NumberedFrom1};

/// A message is taken just when it is short enough, room and a slot are left, and there is a session; too long is
/// reported before full, and full before no session. The messages are numbered from 1 to the count.
pub fn answers_say()
    ensures taken { TakenJustWhen }
    ensures order { RefusedInOrder }
    ensures numbered { NumberedFrom1 }
{}
