//! Laws of the watcher. The functions do nothing: their clauses are the laws.

ghost use Rattle.hog_watcher.specs.Notes.{NotesAreSummed, OwnNotesDecide};

/// After any list of notes a destination has cost the sum of the costs of the rows that were noted for it.
pub fn notes_are_summed()
    ensures { NotesAreSummed }
{}

/// What a destination has cost depends on its own notes alone: those of others may be left out.
pub fn own_notes_decide()
    ensures { OwnNotesDecide }
{}
