//! Locals come off the stack.
#![tactic(auto, using(hog_ops::proofs::Join::join_assoc, hog_ops::proofs::Join::join_none))]

ghost use Rattle.std.specs.Prelude.{◌≡◌, ◌++◌, ◌||◌, [], false, if◌then◌else◌, OnOk};
ghost use Rattle.hog_ops.specs.Plain as o;
ghost use Rattle.hog_ops.specs.View.{op_of};
ghost use Rattle.hog_tree.specs.View.{option_word_of, stm_of, stms_from, option_exp_from, option_stm_from};
ghost use Rattle.hog_captures.specs.Frees.{is_among, stms_frees, option_exp_frees, option_stm_frees};
ghost use Rattle.hog_compiler.specs.AddsCode.{AddsCode};
ghost use Rattle.hog_compiler.specs.Itself.{names_itself};
ghost use Rattle.hog_compiler.specs.Pieces.{one, pop_op, key_pop};
ghost use Rattle.hog_compiler.specs.Code.{name_pop, option_name_pop, block_pops};

use crate::draft::Draft;
use hog_captures::{declared_by, for_takes, fun_takes, stmts_take};
use hog_ops::Op;
use hog_tree::tree::{Expr, Named, Stmt, Stmts};
use hog_value::HogText;
use std::alloc::AllocError;

// A local comes off: its variable is closed where functions take it.
fn pop(is_taken: bool) -> Op
    ensures { op_of result ≡ (if is_taken then o.CloseUpvalue else o.Pop) }
{
    if is_taken { Op::CloseUpvalue } else { Op::Pop }
}

// Whether a statement is a `fun` whose body names it.
fn names_itself(s: &Stmt) -> bool
    ensures { result ≡ names_itself (stm_of s.now) }
{
    match s {
        Stmt::Fun(fun) => fun_takes(&fun.name.word, fun),
        _ => false,
    }
}

// Whether functions take what a statement declares: its own, or those in the statements behind it.
fn is_taken(s: &Stmt, word: &HogText, rest: &[Stmt]) -> bool
    ensures { result ≡ (names_itself (stm_of s.now) || is_among word.now (stms_frees false (stms_from rest.now))) }
{
    if names_itself(s) {
        return true;
    }
    stmts_take(word, rest)
}

// The same of the start of a `for`, and its condition, step and block.
fn start_is_taken(
    s: &Stmt,
    word: &HogText,
    condition: &Option<Expr>,
    step: &Option<Box<Stmt>>,
    body: &Stmts,
) -> bool
    ensures { result ≡ (names_itself (stm_of s.now) || is_among word.now
        (option_exp_frees false (option_exp_from condition.now) ++ (option_stm_frees false (option_stm_from step.now) ++ stms_frees false (stms_from body.now.list.items)))) }
{
    if names_itself(s) {
        return true;
    }
    for_takes(word, condition, step, body)
}

// What a statement declares comes off; these statements stand behind it.
fn name_pop(out: &mut Draft, s: &Stmt, rest: &[Stmt]) -> Result<(), AllocError>
    ensures { OnOk result (AddsCode out.old out.new (name_pop (stm_of s.now) (stms_frees false (stms_from rest.now)))) }
{
    match declared_by(s) {
        Some(name) => out.push(pop(is_taken(s, &name.word, rest))),
        None => Ok(()),
    }
}

/// The locals of a block come off, the last one first.
pub fn block_pops(out: &mut Draft, list: &[Stmt]) -> Result<(), AllocError>
    ensures { OnOk result (AddsCode out.old out.new (block_pops (stms_from list.now))) }
{
    let mut rest = list.len();
    'locals: while rest > 0 {
        let at = rest - 1;
        name_pop(out, &list[at], &list[rest..])?;
        rest = at;
    }
    Ok(())
}

/// What the step of a `for` declares comes off.
pub fn step_pop(out: &mut Draft, step: &Option<Box<Stmt>>) -> Result<(), AllocError>
    ensures { OnOk result (AddsCode out.old out.new (option_name_pop (option_stm_from step.now) [])) }
{
    match step {
        Some(s) => name_pop(out, s, &[]),
        None => Ok(()),
    }
}

/// What the start of a `for` declares comes off.
pub fn start_pop(
    out: &mut Draft,
    start: &Option<Box<Stmt>>,
    condition: &Option<Expr>,
    step: &Option<Box<Stmt>>,
    body: &Stmts,
) -> Result<(), AllocError>
    ensures { OnOk result (AddsCode out.old out.new (option_name_pop (option_stm_from start.now)
        (option_exp_frees false (option_exp_from condition.now) ++ (option_stm_frees false (option_stm_from step.now) ++ stms_frees false (stms_from body.now.list.items))))) }
{
    match start {
        Some(s) => match declared_by(s) {
            Some(name) => out.push(pop(start_is_taken(s, &name.word, condition, step, body))),
            None => Ok(()),
        },
        None => Ok(()),
    }
}

/// A word that is declared for a block comes off.
pub fn word_pop(out: &mut Draft, name: &Named, block: &Stmts) -> Result<(), AllocError>
    ensures { OnOk result (AddsCode out.old out.new
        (one (pop_op name.now.word (stms_frees false (stms_from block.now.list.items))))) }
{
    out.push(pop(stmts_take(&name.word, &block.list)))
}

/// The key of a `for .. in` comes off, where it is named.
pub fn key_pop(out: &mut Draft, key: &Option<Named>, block: &Stmts) -> Result<(), AllocError>
    ensures { OnOk result (AddsCode out.old out.new
        (key_pop (option_word_of key.now) (stms_frees false (stms_from block.now.list.items)))) }
{
    match key {
        Some(name) => word_pop(out, name, block),
        None => Ok(()),
    }
}
