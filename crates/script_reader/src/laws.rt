//! Laws of scripts and their texts. The functions do nothing: their clauses are the laws.

ghost use Rattle.std.specs.Prelude.{◌≡◌, ℕ, List};
ghost use Rattle.script_reader.specs.Script.{IsNoScript, IsScript};
ghost use Rattle.script_reader.specs.declared.step.ScriptStop.{ScriptStop};
ghost use Rattle.script_reader.specs.declared.step.Step.{Step};

/// A text is a script of one list of steps at most.
pub fn one_script()
    ensures { (text : List ℕ) (a b : List Step) → IsScript text a → IsScript text b → a ≡ b }
{}

/// A text that is a script has no refusal.
pub fn script_or_none()
    ensures { (text : List ℕ) (steps : List Step) (stop : ScriptStop) → IsScript text steps → IsNoScript text stop → ⊥ }
{
    hog_program::laws::built_or_unbuilt();
}
