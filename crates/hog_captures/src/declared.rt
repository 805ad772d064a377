//! The names that statements declare.

ghost use Rattle.std.specs.Prelude.{◌≡◌};
ghost use Rattle.std.specs.Option.{option_map};
ghost use Rattle.hog_tree.specs.View.{stm_of, option_stm_from};
ghost use Rattle.hog_captures.specs.Frees.{name_by, option_name_by};

use hog_tree::tree::{Named, Stmt};

/// The name that a statement declares, which those after it see. Takes no memory.
pub fn declared_by<'t>(s: &'t Stmt) -> Option<&'t Named>
    ensures { option_map (λ n. n.now.word) result ≡ name_by (stm_of s.now) }
{
    match s {
        Stmt::Let(name, _) => Some(name),
        Stmt::Fun(fun) => Some(&fun.name),
        _ => None,
    }
}

/// The name that the start of a `for` declares.
pub(crate) fn start_name(s: &Option<Box<Stmt>>) -> Option<&Named>
    ensures { option_map (λ n. n.now.word) result ≡ option_name_by (option_stm_from s.now) }
{
    match s {
        Some(s) => declared_by(s),
        None => None,
    }
}
