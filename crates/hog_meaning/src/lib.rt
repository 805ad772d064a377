//! What programs mean: definitions, and the law on more replies; nothing that runs.
//! Stands on hog_tree, hog_scope, hog_library, hog_json and hog_value.
//! specs/Operators.antt says what operators, access and setting give; World.antt what a run changes and what an
//! evaluation gives; Meaning.antt the value of each expression and the effect of each statement; Program.antt what a
//! program shows on its globals and a list of replies, which is what is used above; Laws.antt what more replies change.
#![tactic(auto)]

pub mod laws;
