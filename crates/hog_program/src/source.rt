//! Reading the tree of a source.

ghost use Rattle.std.specs.Prelude.{◌≡◌, ◌≢◌, ◌≤◌, ◌*◌, ℕ, List, length, IfOk, Err};
ghost use Rattle.hog_bridge.specs.Laws.{IsNamed};
ghost use Rattle.hog_tree.specs.Nesting.{deepest, stms_nesting};
ghost use Rattle.hog_tree.specs.Count.{of_stms};
ghost use Rattle.hog_tree.specs.Plain.{Stms};
ghost use Rattle.hog_tree.specs.View.{tree_of};
ghost use Rattle.hog_program.specs.Build.{IsBuilt, IsUnbuilt};
ghost use Rattle.hog_program.specs.Source.{IsProgram, IsNone};
ghost use Rattle.hog_program.specs.declared.stop.BuildStop.{BuildStop as Stop};

use crate::laws::built_is_named;
use crate::prelude::with_prelude;
use crate::stop::BuildStop;
use hog_parser::parse;
use hog_scope::resolve;
use hog_tokens::lex;
use hog_tree::tree::Tree;
use std::alloc::Global;

/// The greatest length of a program, in bytes.
const MOST_BYTES: usize = 16_384;

/// The tree of a source, in time that is linear in it. A source is a program or it has a refusal, and never
/// both (`program_or_none`), so each refusal comes exactly where it should, want of memory aside.
pub fn read_tree(alloc: Global, source: &[u8]) -> Result<Tree, BuildStop>
    ensures program { IfOk result (λ tree. IsProgram source.now (tree_of tree)) }
    ensures low { IfOk result (λ tree. stms_nesting (tree_of tree) ≤ deepest) }
    ensures refused { (stop : Stop) → result ≡ Err stop → stop ≢ BuildStop.OutOfMemory
        → IsNone source.now stop }

    // A tree has at most two statements and expressions for each byte of its source.
    ensures count { IfOk result (λ tree. of_stms (tree_of tree) ≤ 2 * length source.now) }
{
    if source.len() > MOST_BYTES {
        return Err(BuildStop::TooLong);
    }
    let tokens = lex(alloc, source)?;
    let tree = parse(alloc, &tokens)?;
    Ok(tree)
}

/// The whole program of a source, with what it mentions of the prelude, where its names are without fault.
/// Places in refusals are those in the source. A source is built or it has a refusal, and never both
/// (`built_or_unbuilt`).
pub fn read_whole(alloc: Global, source: &[u8]) -> Result<Tree, BuildStop>
    ensures whole { IfOk result (λ tree. IsBuilt source.now (tree_of tree)) }
    ensures low { IfOk result (λ tree. stms_nesting (tree_of tree) ≤ deepest) }
    ensures named { IfOk result (λ tree. IsNamed (tree_of tree)) }
    ensures unbuilt { (stop : Stop) → result ≡ Err stop → stop ≢ BuildStop.OutOfMemory
        → IsUnbuilt source.now stop }
{
    built_is_named();
    whole_of(alloc, source)
}

/// The whole program of a source; the laws of names aside.
fn whole_of(alloc: Global, source: &[u8]) -> Result<Tree, BuildStop>
    ensures whole { IfOk result (λ tree. IsBuilt source.now (tree_of tree)) }
    ensures low { IfOk result (λ tree. stms_nesting (tree_of tree) ≤ deepest) }
    ensures unbuilt { (stop : Stop) → result ≡ Err stop → stop ≢ BuildStop.OutOfMemory
        → IsUnbuilt source.now stop }
{
    if source.len() > MOST_BYTES {
        return Err(BuildStop::TooLong);
    }
    let tokens = lex(alloc, source)?;
    let program = parse(alloc, &tokens)?;
    let whole = with_prelude(alloc, &tokens, program)?;
    resolve(alloc, &whole)?;
    Ok(whole)
}
