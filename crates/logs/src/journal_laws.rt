//! What the saved form determines, and worked examples.
ghost use Rattle.logs.specs.JournalLaws.{SavedOnce, SavedIsSound, BrokenOnce, BrokenHasAFault};
ghost use Rattle.logs.specs.JournalExamples.{Hold, examples};

/// The saved form determines the log: no two logs have the same form, no saved log is broken, and broken bytes are broken
/// at one place, where it can be said what is wrong.
pub fn form_determines_the_log()
    ensures once { SavedOnce }
    ensures sound { SavedIsSound }
    ensures place { BrokenOnce }
    ensures fault { BrokenHasAFault }
{}

/// The worked examples hold.
pub fn examples_hold()
    ensures { Hold examples }
{}
