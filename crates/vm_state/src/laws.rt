//! How saving and loading undo one another, as laws alone.

ghost use Rattle.vm_state.specs.Laws.{LoadsSaved, LoadsOld, SavesLoaded, HasFormat, Renews, LoadsExactly, RefusesExactly, LoadsStates, RunsAreMachines, RunsBegin, SlicesKeep, RepliesKeep, SavedSlicesCompose};

/// Laws alone: what loading a machine's text gives, and what the bytes of a machine that was loaded are.
pub fn loads_back()
    ensures saved { LoadsSaved }
    ensures old { LoadsOld }
    ensures same { SavesLoaded }
    ensures format { HasFormat }
    ensures renewed { Renews }
{}

/// Laws alone: loading answers each machine and each refusal exactly where it is said.
pub fn loads_exactly()
    ensures loaded { LoadsExactly }
    ensures refused { RefusesExactly }
    ensures states { LoadsStates }
{}

/// Laws alone: each run of a code is a machine of the code, so that its text is one that loads.
pub fn runs_are_machines()
    ensures { RunsAreMachines }
{}

/// Laws alone: each machine of a code goes on as one, from its first operation on, by slices and by replies, and slices
/// compose where it is saved and loaded between them. What `load` answers is such a machine.
pub fn machines_go_on()
    ensures begun { RunsBegin }
    ensures slices { SlicesKeep }
    ensures replies { RepliesKeep }
    ensures saved { SavedSlicesCompose }
{}
