//! The code of a program.

ghost use Rattle.std.specs.Prelude.{◌≡◌, ◌≤◌, IfOk};
ghost use Rattle.hog_tree.specs.View.{tree_of};
ghost use Rattle.hog_compiler.specs.Code.{code_of};
ghost use Rattle.hog_tree.specs.Nesting.{deepest, stms_nesting};

use crate::draft::Draft;
use crate::forms::stmts;
use hog_captures::Frame;
use hog_ops::Code;
use hog_scope::Scoped;
use hog_tree::tree::Tree;
use std::alloc::{AllocError, Global};

/// The code of a program. Functions stand in one another no more than a program is high.
pub fn compile_tree(alloc: Global, tree: &Tree) -> Result<Code, AllocError>
    requires { stms_nesting (tree_of tree.now) ≤ deepest }
    ensures { IfOk result (λ code. code ≡ code_of (tree_of tree.now)) }
{
    let mut frame = Frame::first(alloc);
    let mut out = Draft::new(alloc);
    stmts(&mut out, &mut frame, &tree.stmts)?;
    out.return_null()?;
    Ok(out.into_code())
}

/// The code of a program whose names are resolved.
pub fn compile(alloc: Global, scoped: &Scoped) -> Result<Code, AllocError>
    requires { stms_nesting (tree_of scoped.now.tree) ≤ deepest }
    ensures { IfOk result (λ code. code ≡ code_of (tree_of scoped.now.tree)) }
{
    compile_tree(alloc, scoped.tree())
}
