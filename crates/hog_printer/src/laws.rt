//! What holds of printed programs. The functions do nothing: their clauses are the laws.

ghost use Rattle.hog_printer.specs.Laws.{ReadsBack, ReadsBackOnly};

/// The printed text of a program that has a text is a text of that program.
pub fn reads_back()
    ensures { ReadsBack }
{}

/// It is a text of no other program.
pub fn reads_back_only()
    ensures { ReadsBackOnly }
{}
