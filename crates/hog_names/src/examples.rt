//! The items of small programs. The functions do nothing: their clauses are the examples. The programs and their texts stand
//! in specs/ExamplePrograms.antt of hog_bridge.

ghost use Rattle.std.specs.Prelude.{◌≡◌, [], ◌∷◌};
ghost use Rattle.hog_value.specs.declared.native.Native.TheVariants.{Length};
ghost use Rattle.hog_scope.specs.declared.item.Item.TheVariants.{Declared, Native, Global};
ghost use Rattle.hog_bridge.specs.ExamplePrograms as program;
ghost use Rattle.hog_names.specs.Anew.{program_anew};
ghost use Rattle.hog_names.specs.Examples.{AreNumbered, numbered, caught_name_anew};

/// A function captures the variable of a loop over values, and calls of `length` are of the native.
pub fn captured_in_a_loop()
    ensures { AreNumbered program.captured_in_a_loop (Declared 0 ∷ Declared 1 ∷ Declared 2 ∷ Declared 0 ∷ Declared 2 ∷ Declared 2 ∷ Declared 2 ∷ Declared 2 ∷ Declared 1 ∷ Native Length ∷ Declared 0 ∷ Declared 0 ∷ Declared 0 ∷ []) }
{}

/// The name of a `catch` hides one of that name, and a function captures it.
pub fn caught_name()
    ensures { AreNumbered program.caught_name (Declared 0 ∷ Declared 1 ∷ Declared 2 ∷ Declared 1 ∷ Declared 2 ∷ Declared 2 ∷ Declared 0 ∷ Declared 1 ∷ []) }
{}

/// With its variables called anew.
pub fn caught_name_is_called_anew()
    ensures { program_anew numbered (Declared 0 ∷ Declared 1 ∷ Declared 2 ∷ Declared 1 ∷ Declared 2 ∷ Declared 2 ∷ Declared 0 ∷ Declared 1 ∷ []) program.caught_name ≡ caught_name_anew }
{}

/// A name that no declaration in sight has is a global.
pub fn globals_read()
    ensures { AreNumbered program.globals_read (Global ∷ Global ∷ Global ∷ []) }
{}
