//! Small programs, each shown both ways: by its meaning, and by the machine's course on its code. The functions do nothing:
//! their clauses are the examples. Above each program stands its text, in specs/ExamplePrograms.antt.

ghost use Rattle.std.specs.Prelude.{List, [], ◌∷◌, replicate, Some, None, codes};
ghost use Rattle.hog_value.specs.declared.trace.End.TheVariants.{Done, Threw, TooDeep, TooManyFetches};
ghost use Rattle.hog_value.specs.declared.trace.TraceItem.TheVariants.{Printed};
ghost use Rattle.hog_bridge.specs.ExamplePrograms as program;
ghost use Rattle.hog_bridge.specs.Examples.{ShowsBothWays, asked, reply};

/// A function shares a variable with the program, and of a sum the right operand comes first.
pub fn shared_counter()
    ensures { ShowsBothWays program.shared_counter (codes "{}") [] 22 2 [] (Some (Done (codes "5"))) }
{}

/// What the right operand prints comes first.
pub fn right_operand_first()
    ensures { ShowsBothWays program.right_operand_first (codes "{}") [] 18 2 (Printed (codes "b") ∷ Printed (codes "a") ∷ []) (Some (Done (codes "3"))) }
{}

/// A throw through two calls: the variable that a function has captured outlives its call.
pub fn closed_by_a_throw()
    ensures { ShowsBothWays program.closed_by_a_throw (codes "{}") [] 22 3 [] (Some (Done (codes "['out', 2]"))) }
{}

/// Past its end an array gives null; index 0 throws, and nobody catches.
pub fn index_error()
    ensures { ShowsBothWays program.index_error (codes "{}") [] 13 0 (Printed (codes "10 null") ∷ []) (Some (Threw (codes "{'type': 'IndexError', 'message': 'index out of range', 'payload': null}"))) }
{}

/// A sum past 64 bits throws a dictionary, which is caught.
pub fn overflow_caught()
    ensures { ShowsBothWays program.overflow_caught (codes "{}") [] 8 0 [] (Some (Done (codes "IntegerOverflow"))) }
{}

/// No request is made of a URL that isn't allowed.
pub fn blocked_url()
    ensures { ShowsBothWays program.blocked_url (codes "{}") [] 3 1 [] (Some (Done (codes "{'status': 0, 'body': 'blocked'}"))) }
{}

/// With no reply a request waits.
pub fn request_waits()
    ensures { ShowsBothWays program.asking (codes "{}") [] 5 1 (asked (codes "https://a") (codes "{\"n\":1}") ∷ []) None }
{}

/// With a reply the same program goes on.
pub fn request_goes_on()
    ensures { ShowsBothWays program.asking (codes "{}") (reply 200 (codes "[1]") ∷ []) 15 1 (asked (codes "https://a") (codes "{\"n\":1}") ∷ Printed (codes "200") ∷ []) (Some (Done (codes "[1]"))) }
{}

/// A loop over a dictionary goes over copies of its keys and values.
pub fn keys_and_values()
    ensures { ShowsBothWays program.keys_and_values (codes "{}") [] 86 2 (Printed (codes "a 1") ∷ Printed (codes "b 2") ∷ []) (Some (Done (codes "{'a': 2, 'b': 3, 'n': 7}"))) }
{}

/// Each turn of a loop over values makes a new variable, and a `return` leaves the loop.
pub fn captured_in_a_loop()
    ensures { ShowsBothWays program.captured_in_a_loop (codes "{}") [] 68 4 [] (Some (Done (codes "[2, 1, 2]"))) }
{}

/// A function that is named captures itself.
pub fn captures_itself()
    ensures { ShowsBothWays program.captures_itself (codes "{}") [] 36 3 [] (Some (Done (codes "6"))) }
{}

/// The parts of a template in order.
pub fn template()
    ensures { ShowsBothWays program.template (codes "{}") [] 8 0 [] (Some (Done (codes "3 of 4"))) }
{}

/// What is thrown in one turn of a loop is caught in it, and the loop goes on.
pub fn try_in_a_loop()
    ensures { ShowsBothWays program.try_in_a_loop (codes "{}") [] 70 3 [] (Some (Done (codes "21"))) }
{}

/// What a step declares is seen in that step alone.
pub fn declared_in_a_step()
    ensures { ShowsBothWays program.declared_in_a_step (codes "{}") [] 29 2 [] (Some (Done (codes "2"))) }
{}

/// A word that is declared nowhere is a global, and one that isn't there is null.
pub fn globals_read()
    ensures { ShowsBothWays program.globals_read (codes "{\"inputs\":{\"url\":\"u\"}}") [] 15 0 [] (Some (Done (codes "['u', 'none', null]"))) }
{}

/// A function of the prelude, placed before the program.
pub fn mapped()
    ensures { ShowsBothWays program.mapped (codes "{}") [] 77 5 [] (Some (Done (codes "[4, 9]"))) }
{}

/// `and` and `or` take both sides, the left one first, and give a truth value.
pub fn both_operands()
    ensures { ShowsBothWays program.both_operands (codes "{}") [] 37 4 (Printed (codes "0") ∷ Printed (codes "1") ∷ Printed (codes "2") ∷ Printed (codes "3") ∷ []) (Some (Done (codes "[false, true]"))) }
{}

/// The name of a `catch` is a new variable, which hides one of that name and may be captured.
pub fn caught_name()
    ensures { ShowsBothWays program.caught_name (codes "{}") [] 17 1 [] (Some (Done (codes "[1, 3]"))) }
{}

/// A function captures what its `catch` reads.
pub fn captured_in_a_catch()
    ensures { ShowsBothWays program.captured_in_a_catch (codes "{}") [] 12 1 [] (Some (Done (codes "3"))) }
{}

/// A `return` leaves its `try`, which catches nothing from then on.
pub fn returned_from_a_try()
    ensures { ShowsBothWays program.returned_from_a_try (codes "{}") [] 9 1 [] (Some (Threw (codes "3"))) }
{}

/// The call at depth 257 ends the run, and no `catch` sees it.
pub fn too_deep()
    ensures { ShowsBothWays program.too_deep (codes "{}") [] 516 256 [] (Some TooDeep) }
{}

/// With 100 requests behind it a request ends the run.
pub fn asks_on()
    ensures { ShowsBothWays program.asks_on (codes "{}") (replicate 100 (reply 200 (codes "1"))) 704 200 (replicate 100 (asked (codes "https://a") (codes "null"))) (Some TooManyFetches) }
{}
