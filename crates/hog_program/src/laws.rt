//! Laws of programs and their sources. The functions do nothing: their clauses are the laws.

ghost use Rattle.std.specs.Prelude.{◌≡◌, ℕ, List};
ghost use Rattle.hog_bridge.specs.Laws.{IsNamed};
ghost use Rattle.hog_scope.specs.Scopes.{Cause};
ghost use Rattle.hog_tree.specs.Plain.{Stms};
ghost use Rattle.hog_program.specs.Build.{HasFault, IsBuilt, IsUnbuilt};
ghost use Rattle.hog_program.specs.Course.{OneMeaning, CourseShowsMeaning, CourseIsShort};
ghost use Rattle.hog_program.specs.Source.{IsProgram, IsNone, ReadsBack};
ghost use Rattle.hog_program.specs.declared.stop.BuildStop.{BuildStop};

/// A source is a program with one tree at most.
pub fn one_tree()
    ensures { (source : List ℕ) (a b : Stms) → IsProgram source a → IsProgram source b → a ≡ b }
{
    hog_tokens::laws::one_list();
    hog_spelling::laws::one_tree();
}

/// A source that is a program has no refusal.
pub fn program_or_none()
    ensures { (source : List ℕ) (tree : Stms) (stop : BuildStop) → IsProgram source tree → IsNone source stop → ⊥ }
{
    hog_tokens::laws::one_list();
    hog_tokens::laws::not_both();
}

/// A source has one whole program at most.
pub fn one_whole()
    ensures { (source : List ℕ) (a b : Stms) → IsBuilt source a → IsBuilt source b → a ≡ b }
{
    hog_tokens::laws::one_list();
    hog_spelling::laws::one_tree();
}

/// A source has one fault of its names at most, at one place.
pub fn one_fault()
    ensures { (source : List ℕ) (a b : Cause) (m n : ℕ) → HasFault source a m → HasFault source b n → (a ≡ b) × (m ≡ n) }
{
    hog_tokens::laws::one_list();
    hog_spelling::laws::one_tree();
}

/// A source that is built has no refusal.
pub fn built_or_unbuilt()
    ensures { (source : List ℕ) (whole : Stms) (stop : BuildStop) → IsBuilt source whole → IsUnbuilt source stop → ⊥ }
{
    program_or_none();
    hog_tokens::laws::one_list();
    hog_spelling::laws::one_tree();
}

/// The printed text of a program is that program again, where it is no longer and no higher than a program may be.
pub fn printed_reads_back()
    ensures { ReadsBack }
{
    hog_printer::laws::reads_back();
}

/// The names of the whole program of a source are right, so the laws of its course hold for it.
pub fn built_is_named()
    ensures { (source : List ℕ) (whole : Stms) → IsBuilt source whole → IsNamed whole }
{}

/// One thing at most comes of a source on globals and replies.
pub fn one_meaning()
    ensures { OneMeaning }
{
    one_whole();
}

/// The course on the code of a source shows exactly what comes of the source.
pub fn course_shows_meaning()
    ensures { CourseShowsMeaning }
{
    built_is_named();
    hog_bridge::laws::course_is_meaning();
    hog_bridge::laws::course_rests();
}

/// A course on the code of a source is no longer than the turns that it has spent allow.
pub fn course_is_short()
    ensures { CourseIsShort }
{
    built_is_named();
    hog_bridge::laws::course_is_bounded();
}
