//! The sources of a made plan's functions are programs.
//! Stands on hog_program, hog_scope, hog_spelling and hog_tokens.
//! specs/Sources.antt has the texts and their trees; proofs/ reads them by computing.
//! The function does nothing: its clauses are what holds.
//! Above, `sources_are_built` is used: a made plan is refused for none of its sources.
#![tactic(auto)]

ghost use Rattle.hog_program.specs.Build.{IsBuilt};
ghost use Rattle.made_sources.specs.Sources.{echo_source, high_source, sum_source, high_filter, echo_tree, high_tree, sum_tree, high_filter_tree};

/// Each source is a program with that tree, and its names are without fault.
pub fn sources_are_built()
    ensures echo { IsBuilt echo_source echo_tree }
    ensures high { IsBuilt high_source high_tree }
    ensures sum { IsBuilt sum_source sum_tree }
    ensures filter { IsBuilt high_filter high_filter_tree }
{}
