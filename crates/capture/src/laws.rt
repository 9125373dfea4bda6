//! Theorems over whole captures: each function's contract is one.
ghost use Rattle.capture.specs.Runs.{AccountsForEveryByte, PiecesDoNotMatter};

/// Every byte that was read belongs to one packet that was shown, or is still held.
pub fn accounts_for_every_byte()
    ensures { AccountsForEveryByte }
{}

/// The packets shown and the bytes left over are decided by the bytes alone, however they came in pieces.
pub fn pieces_do_not_matter()
    ensures { PiecesDoNotMatter }
{}
