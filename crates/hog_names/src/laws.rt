//! How the numbers that `resolve` gives stand to environments. The functions do nothing: their clauses are the laws.

ghost use Rattle.hog_names.specs.Laws.{NumbersAreFound, NamingsExist, NumbersStay, MeaningIsByNumbers};

/// Each word of a program whose names are right has the item that an environment finds for it.
pub fn numbers_are_found()
    ensures { NumbersAreFound }
{}

/// Each program has a naming, by which its variables can be called anew.
pub fn namings_exist()
    ensures { NamingsExist }
{}

/// With its variables called anew, by the numbers of their declarations, a program's names are right still, and the numbers are
/// the same.
pub fn numbers_stay()
    ensures { NumbersStay }
{}

/// With its variables called anew, by the numbers of their declarations, a program means the same.
pub fn meaning_is_by_numbers()
    ensures { MeaningIsByNumbers }
{}
