//! The machine's course: definitions of what the machine holds and does, and the laws of its runs; nothing that runs.
//! Stands on hog_ops, hog_meaning, hog_library, hog_json and hog_value.
//! specs/State.antt says what the machine holds, Stack.antt how values come and go, Throws.antt where a throw lands,
//! Step.antt what each operation does, Course.antt the machine after so many operations, Run.antt what becomes of a run by
//! slices and replies, Belongs.antt when one belongs to a code, and States.antt which are states. These are used above.
#![tactic(auto)]

pub mod laws;
