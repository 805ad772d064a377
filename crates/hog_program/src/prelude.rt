//! The prelude.

ghost use Rattle.std.specs.Prelude.{◌≡◌, ℕ, List, drop, IfOk, OnOk, codes};
ghost use Rattle.hog_tree.specs.Names.{tree_names};
ghost use Rattle.hog_tree.specs.Plain.{Stm, Then, Done};
ghost use Rattle.hog_tree.specs.View.{stm_of, stms_from, tree_of};
ghost use Rattle.hog_program.specs.Placing.{added};
ghost use Rattle.hog_program.specs.Prelude.{array_map, array_filter, array_exists, is_word_kind, mentions, with_prelude, words_in_front};
ghost use Rattle.hog_program.specs.Source.{IsProgram};

use crate::laws::{one_tree, program_or_none};
use crate::source::read_tree;
use crate::stop::BuildStop;
use hog_grammar::{TokenKind, Tokens};
use hog_tree::tree::{Stmt, Stmts, Tree};
use std::alloc::{AllocError, Global};

/// The text of `arrayMap`.
const ARRAY_MAP: &[u8] =
    b"fun arrayMap(f, a) {\n    let r := [];\n    for (let x in a) {\n        r[length(r) + 1] := f(x);\n    }\n    return r;\n}\n";

/// The text of `arrayFilter`.
const ARRAY_FILTER: &[u8] =
    b"fun arrayFilter(f, a) {\n    let r := [];\n    for (let x in a) {\n        if (f(x)) {\n            r[length(r) + 1] := x;\n        }\n    }\n    return r;\n}\n";

/// The text of `arrayExists`.
const ARRAY_EXISTS: &[u8] =
    b"fun arrayExists(f, a) {\n    for (let x in a) {\n        if (f(x)) {\n            return true;\n        }\n    }\n    return false;\n}\n";

/// The program with what its text mentions of the prelude. The program's words keep their places, and stand behind those
/// of the prelude.
pub fn with_prelude(alloc: Global, tokens: &Tokens, program: Tree) -> Result<Tree, AllocError>
    ensures names { IfOk result (λ whole. drop (words_in_front tokens.now) (tree_names whole) ≡ tree_names program) }
    ensures whole { IfOk result (λ whole. tree_of whole ≡ with_prelude tokens.now (tree_of program)) }
{
    let mut list = Vec::new(alloc);
    place_map(alloc, tokens, &mut list)?;
    place_filter(alloc, tokens, &mut list)?;
    place_exists(alloc, tokens, &mut list)?;
    if list.is_empty() {
        return Ok(program);
    }
    list.push(Stmt::Block(program.stmts))?;
    Ok(Tree {
        stmts: Stmts { list },
    })
}

/// Adds `arrayMap` where the tokens mention it.
#[tactic(auto, using(crate::proofs::Preludes::one_behind))]
fn place_map(alloc: Global, tokens: &Tokens, list: &mut Vec<Stmt>) -> Result<(), AllocError>
    ensures { OnOk result (stms_from list.new.items
        ≡ added (mentions tokens.now (codes "arrayMap")) array_map (stms_from list.old.items)) }
{
    if mentions(tokens, b"arrayMap") {
        list.push(array_map(alloc)?)?;
    }
    Ok(())
}

/// Adds `arrayFilter` where the tokens mention it.
#[tactic(auto, using(crate::proofs::Preludes::one_behind))]
fn place_filter(alloc: Global, tokens: &Tokens, list: &mut Vec<Stmt>) -> Result<(), AllocError>
    ensures { OnOk result (stms_from list.new.items
        ≡ added (mentions tokens.now (codes "arrayFilter")) array_filter (stms_from list.old.items)) }
{
    if mentions(tokens, b"arrayFilter") {
        list.push(array_filter(alloc)?)?;
    }
    Ok(())
}

/// Adds `arrayExists` where the tokens mention it.
#[tactic(auto, using(crate::proofs::Preludes::one_behind))]
fn place_exists(alloc: Global, tokens: &Tokens, list: &mut Vec<Stmt>) -> Result<(), AllocError>
    ensures { OnOk result (stms_from list.new.items
        ≡ added (mentions tokens.now (codes "arrayExists")) array_exists (stms_from list.old.items)) }
{
    if mentions(tokens, b"arrayExists") {
        list.push(array_exists(alloc)?)?;
    }
    Ok(())
}

/// Whether the word stands among the tokens. Takes no memory.
#[tactic(auto, using(hog_terms::proofs::Place::order_at))]
fn mentions(tokens: &Tokens, name: &[u8]) -> bool
    ensures { result ≡ mentions tokens.now name.now }
{
    let list = tokens.list();
    for i in 0..list.len() {
        let token = list[i];
        if is_word(token.kind) && tokens.bytes(token) == name {
            return true;
        }
    }
    false
}

fn is_word(kind: TokenKind) -> bool
    ensures { result ≡ is_word_kind kind }
{
    match kind {
        TokenKind::Word => true,
        _ => false,
    }
}

fn array_map(alloc: Global) -> Result<Stmt, AllocError>
    ensures { IfOk result (λ s. stm_of s ≡ array_map) }
{
    first_statement(alloc, ARRAY_MAP)
}

fn array_filter(alloc: Global) -> Result<Stmt, AllocError>
    ensures { IfOk result (λ s. stm_of s ≡ array_filter) }
{
    first_statement(alloc, ARRAY_FILTER)
}

fn array_exists(alloc: Global) -> Result<Stmt, AllocError>
    ensures { IfOk result (λ s. stm_of s ≡ array_exists) }
{
    first_statement(alloc, ARRAY_EXISTS)
}

/// The statement of a text that is a program of one.
fn first_statement(alloc: Global, text: &[u8]) -> Result<Stmt, AllocError>
    requires { (s : Stm) × IsProgram text.now (Then s Done) }
    ensures { IfOk result (λ read. (s : Stm) → IsProgram text.now (Then s Done) → stm_of read ≡ s) }
{
    one_tree();
    program_or_none();
    match read_tree(alloc, text) {
        Ok(tree) => {
            let mut list = tree.stmts.list;
            Ok(list.remove(0))
        }
        Err(stop) => match stop {
            BuildStop::OutOfMemory => Err(AllocError),
            _ => unreachable!(),
        },
    }
}
