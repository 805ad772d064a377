//! Laws of accepted bytecode: it never lacks an operand, a local, an upvalue or a try, and it ends or waits within a bound.
//! Stands on bytecode_check (which code is accepted), vm_course (the machine) and hog_ops.
//! specs/Lacks.antt says when an operation lacks what it needs, Typed.antt what a typing of a code is, Laws.antt the laws.
//! Above, the laws are used: `accepted_is_safe`, `accepted_is_bounded`, `accepted_rests`. Nothing here runs.
//! No call takes memory.
#![tactic(auto)]

ghost use Rattle.bytecode_safety.specs.Laws.{AcceptedIsTyped, AcceptedIsSafe, AcceptedIsBounded, AcceptedRests};

/// The shapes with which a code is accepted are a typing of it.
pub fn accepted_is_typed()
    ensures { AcceptedIsTyped }
{}

/// No operation of an accepted code ever lacks an operand, a local, an upvalue, a try or a callee's body, on any globals and
/// any replies, after any number of operations.
pub fn accepted_is_safe()
    ensures { AcceptedIsSafe }
{}

/// An accepted code does at most `1 + (turns + 1) * (operations + 1)` operations until it ends or waits with all replies
/// used, by the turns that it has spent.
pub fn accepted_is_bounded()
    ensures { AcceptedIsBounded }
{}

/// Every run of an accepted code ends, or waits with all replies used.
pub fn accepted_rests()
    ensures { AcceptedRests }
{}
