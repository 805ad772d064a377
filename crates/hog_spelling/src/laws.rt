//! The laws. The functions do nothing: their clauses are the laws.

ghost use Rattle.hog_grammar.specs.Spelling.{OneTree};
ghost use Rattle.hog_spelling.specs.Laws.{ReadIsSpelled, RefusedIsUnspelled, NestedIsHigher, NestedIsLate, TwoForEach};

/// A list of tokens spells at most one program, at one height.
pub fn one_tree()
    ensures { OneTree }
{}

/// A program that is read is spelled, no higher than it was read.
pub fn read_is_spelled()
    ensures { ReadIsSpelled }
{}

/// Tokens that are refused for their syntax spell no program.
pub fn refused_is_unspelled()
    ensures { RefusedIsUnspelled }
{}

/// Tokens that are refused as too nested spell nothing up to that height.
pub fn nested_is_higher()
    ensures { NestedIsHigher }
{}

/// Where tokens are refused as too nested, half as many tokens as the height stand before the place.
pub fn nested_is_late()
    ensures { NestedIsLate }
{}

/// A program has at most two statements and expressions for each of its tokens.
pub fn two_for_each()
    ensures { TwoForEach }
{}
