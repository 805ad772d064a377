//! Laws of the tokens and the bad places of a text. The functions do nothing: their clauses are the laws.

ghost use Rattle.hog_grammar.specs.Laws.{OneList, TokensOrFault, NotBoth, OneFirstFault};

/// A text has at most one list of tokens.
pub fn one_list()
    ensures { OneList }
{}

/// A text that is UTF-8 has a list of tokens or a first bad place.
pub fn tokens_or_fault()
    ensures { TokensOrFault }
{}

/// A text that has a list of tokens has no bad place.
pub fn not_both()
    ensures { NotBoth }
{}

/// A text has at most one first fault.
pub fn one_first_fault()
    ensures { OneFirstFault }
{}
