//! Theorems that stand on no call: each function's contract is one.
ghost use Rattle.account.specs.Examples.{ExamplesHold};
ghost use Rattle.account.specs.Laws.{Folds, FindsByFolded, FindsTheSame, MarksOneRow, FoundAsBefore, LetsInOne, JudgesFields, FieldsStayApart, FirstDecides, AcceptsJustThese};

/// Capital letters do not matter in a lookup, and nor does the order of looking, since no user and computer ID
/// stands in two rows.
pub fn one_row_is_found()
    ensures folds { Folds }
    ensures folded { FindsByFolded }
    ensures order { FindsTheSame }
{}

/// A mark that is set or taken away changes its row alone, and nothing of what is found; a row that is marked
/// lets nobody in.
pub fn marking_touches_one_row()
    ensures one { MarksOneRow }
    ensures found { FoundAsBefore }
    ensures shut { LetsInOne }
{}

/// Just the texts that may stand in a field are taken; padded, they fill it, and no two become the same.
pub fn fields_stay_apart()
    ensures judged { JudgesFields }
    ensures apart { FieldsStayApart }
{}

/// The status of a login is that of the first check that fails, and just those logins are accepted that are
/// right in everything.
pub fn the_first_check_decides()
    ensures first { FirstDecides }
    ensures accepted { AcceptsJustThese }
{}

/// The worked examples of lookups and logins hold of the definitions.
pub fn examples_hold()
    ensures { ExamplesHold }
{}
