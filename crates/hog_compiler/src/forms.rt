//! The code of each form.
#![tactic(auto, using(hog_ops::proofs::Join::join_assoc, hog_ops::proofs::Join::join_none))]

ghost use Rattle.std.specs.Prelude.{◌≡◌, ◌≤◌, OnOk};
ghost use Rattle.hog_ops.specs.View.{op_of};
ghost use Rattle.hog_tree.specs.Plain.{NoPart, Lambda, Assign, If, For, ForIn, Fun, Try};
ghost use Rattle.hog_tree.specs.View.{words_of, option_word_of, exp_of, exps_from, part_of, parts_from, dict_of, body_of, stm_of, stms_from, option_exp_from, option_stm_from, option_stms_from};
ghost use Rattle.hog_compiler.specs.AddsCode.{AddsCode};
ghost use Rattle.hog_compiler.specs.Code.{exp_code, exps_code, parts_code, pairs_code, body_code, stm_code, stms_code, value_code, option_stm_code, block_code};
ghost use Rattle.hog_tree.specs.Nesting.{deepest, exp_nesting, exps_nesting, parts_nesting, pairs_nesting, body_nesting, stm_nesting, stms_nesting, option_exp_nesting, option_stm_nesting};

use crate::draft::Draft;
use crate::items::key_count;
use crate::pieces::{
    counted, is_left_first, lambda_name, native_called, operation, read, truth, write,
};
use crate::pops::{block_pops, start_pop, step_pop, word_pop};
use hog_captures::{Captured, Frame};
use hog_ops::Op;
use hog_tree::tree::{
    ArrowBody, DictItems, Expr, Exprs, FunTree, Named, Names, Part, Parts, Stmt, Stmts,
};
use hog_value::Native;
use std::alloc::AllocError;

#[cycle(forms)]
fn expr<'t>(out: &mut Draft, frame: &Frame<'t>, e: &'t Expr) -> Result<(), AllocError>
    requires { exp_nesting (exp_of e.now) ≤ deepest }
    ensures { OnOk result (AddsCode out.old out.new (exp_code frame.now (exp_of e.now))) }
{
    match e {
        Expr::Int(n) => out.push(Op::Integer(*n)),
        Expr::Bool(b) => out.push(truth(*b)),
        Expr::Null => out.push(Op::PushNull),
        Expr::Text(text) => out.push(Op::Str(text.copy()?)),
        Expr::Template(list) => {
            parts(out, frame, list)?;
            out.push(Op::CallGlobal(Native::Concat, counted(list.list.len())?))
        }
        Expr::Name(name) => read(out, frame, &name.word),
        Expr::Array(list) => {
            exprs(out, frame, list)?;
            out.push(Op::Array(counted(list.list.len())?))
        }
        Expr::Dict(list) => {
            dict_items(out, frame, list)?;
            out.push(Op::Dict(counted(list.list.len())?))
        }
        Expr::Neg(x) => {
            expr(out, frame, x)?;
            out.push(Op::Integer(0))?;
            out.push(Op::Minus)
        }
        Expr::Not(x) => {
            expr(out, frame, x)?;
            out.push(Op::Not)
        }
        Expr::Binary(op, x, y) => {
            if is_left_first(*op) {
                expr(out, frame, x)?;
                expr(out, frame, y)?;
                return out.push(operation(*op));
            }
            expr(out, frame, y)?;
            expr(out, frame, x)?;
            out.push(operation(*op))
        }
        Expr::Coalesce(x, y) => {
            expr(out, frame, x)?;
            let mut second = Draft::new(out.allocator());
            expr(&mut second, frame, y)?;
            out.coalesce(second)
        }
        Expr::Prop(x, word) => {
            expr(out, frame, x)?;
            out.push(Op::Str(word.copy()?))?;
            out.push(Op::GetProperty)
        }
        Expr::PropNullish(x, word) => {
            expr(out, frame, x)?;
            out.push(Op::Str(word.copy()?))?;
            out.push(Op::GetPropertyNullish)
        }
        Expr::Index(x, key) => {
            expr(out, frame, x)?;
            expr(out, frame, key)?;
            out.push(Op::GetProperty)
        }
        Expr::Call(callee, args) => {
            exprs(out, frame, args)?;
            let count = counted(args.list.len())?;
            if let Some(word) = native_called(frame, callee) {
                return out.call_native(Native::named(word.bytes()), count);
            }
            expr(out, frame, callee)?;
            out.push(Op::CallLocal(count))
        }
        Expr::Lambda(params, body) => lambda(out, frame, params, body),
    }
}

#[cycle(forms)]
fn exprs<'t>(out: &mut Draft, frame: &Frame<'t>, es: &'t Exprs) -> Result<(), AllocError>
    requires { exps_nesting (exps_from es.now.list.items) ≤ deepest }
    ensures { OnOk result (AddsCode out.old out.new (exps_code frame.now (exps_from es.now.list.items))) }
{
    for e in &es.list {
        expr(out, frame, e)?;
    }
    Ok(())
}

#[cycle(forms)]
fn part<'t>(out: &mut Draft, frame: &Frame<'t>, p: &'t Part) -> Result<(), AllocError>
    requires { parts_nesting (part_of p.now NoPart) ≤ deepest }
    ensures { OnOk result (AddsCode out.old out.new (parts_code frame.now (part_of p.now NoPart))) }
{
    match p {
        Part::Text(text) => out.push(Op::Str(text.copy()?)),
        Part::Hole(e) => expr(out, frame, e),
    }
}

#[cycle(forms)]
fn parts<'t>(out: &mut Draft, frame: &Frame<'t>, ps: &'t Parts) -> Result<(), AllocError>
    requires { parts_nesting (parts_from ps.now.list.items) ≤ deepest }
    ensures { OnOk result (AddsCode out.old out.new (parts_code frame.now (parts_from ps.now.list.items))) }
{
    for p in &ps.list {
        part(out, frame, p)?;
    }
    Ok(())
}

#[cycle(forms)]
fn dict_items<'t>(out: &mut Draft, frame: &Frame<'t>, ds: &'t DictItems) -> Result<(), AllocError>
    requires { pairs_nesting (dict_of ds.now) ≤ deepest }
    ensures { OnOk result (AddsCode out.old out.new (pairs_code frame.now (dict_of ds.now))) }
{
    for item in &ds.list {
        expr(out, frame, &item.key)?;
        expr(out, frame, &item.value)?;
    }
    Ok(())
}

#[cycle(forms)]
fn lambda<'t>(
    out: &mut Draft,
    frame: &Frame<'t>,
    params: &'t Names,
    body: &'t ArrowBody,
) -> Result<(), AllocError>
    requires { exp_nesting (Lambda (words_of params.now) (body_of body.now)) ≤ deepest }
    ensures { OnOk result (AddsCode out.old out.new
        (exp_code frame.now (Lambda (words_of params.now) (body_of body.now)))) }
{
    let alloc = out.allocator();
    let captured = Captured::by_lambda(alloc, frame, params, body)?;
    let captures = captured.captures(alloc, frame)?;
    let mut inner = Frame::inner(alloc, params, captured)?;
    let mut code = Draft::new(alloc);
    arrow_body(&mut code, &mut inner, body)?;
    out.function(lambda_name(alloc)?, params, captures, code)
}

// What a function returns: the value of an expression, or null after statements.
#[cycle(forms)]
fn arrow_body<'t>(
    out: &mut Draft,
    frame: &mut Frame<'t>,
    body: &'t ArrowBody,
) -> Result<(), AllocError>
    requires { body_nesting (body_of body.now) ≤ deepest }
    ensures { OnOk result (AddsCode out.old out.new (body_code frame.old (body_of body.now))) }
{
    match body {
        ArrowBody::One(e) => {
            expr(out, frame, e)?;
            out.push(Op::Return)
        }
        ArrowBody::Block(list) => {
            stmts(out, frame, list)?;
            out.return_null()
        }
    }
}

// A value, or what stands for one that is left out.
#[cycle(forms)]
fn value<'t>(
    out: &mut Draft,
    frame: &Frame<'t>,
    x: &'t Option<Expr>,
    absent: Op,
) -> Result<(), AllocError>
    requires { option_exp_nesting (option_exp_from x.now) ≤ deepest }
    ensures { OnOk result (AddsCode out.old out.new (value_code frame.now (op_of absent) (option_exp_from x.now))) }
{
    match x {
        Some(e) => expr(out, frame, e),
        None => out.push(absent),
    }
}

#[cycle(forms)]
fn option_stmt<'t>(
    out: &mut Draft,
    frame: &mut Frame<'t>,
    s: &'t Option<Box<Stmt>>,
) -> Result<(), AllocError>
    requires { option_stm_nesting (option_stm_from s.now) ≤ deepest }
    ensures code { OnOk result (AddsCode out.old out.new (option_stm_code frame.old (option_stm_from s.now))) }
    ensures frame { OnOk result (frame.new ≡ frame.old) }
{
    match s {
        Some(s) => stmt(out, frame, s),
        None => Ok(()),
    }
}

#[cycle(forms)]
fn stmt<'t>(out: &mut Draft, frame: &mut Frame<'t>, s: &'t Stmt) -> Result<(), AllocError>
    requires { stm_nesting (stm_of s.now) ≤ deepest }
    ensures code { OnOk result (AddsCode out.old out.new (stm_code frame.old (stm_of s.now))) }
    ensures frame { OnOk result (frame.new ≡ frame.old) }
{
    match s {
        Stmt::Let(_, x) => value(out, frame, x, Op::PushNull),
        Stmt::Assign(target, x) => assign(out, frame, target, x),
        Stmt::Do(e) => {
            expr(out, frame, e)?;
            out.push(Op::Pop)
        }
        Stmt::Return(x) => {
            value(out, frame, x, Op::PushNull)?;
            out.push(Op::Return)
        }
        Stmt::Throw(e) => {
            expr(out, frame, e)?;
            out.push(Op::Throw)
        }
        Stmt::If(condition, body, other) => choice(out, frame, condition, body, other),
        Stmt::While(condition, body) => {
            let mut test = Draft::new(out.allocator());
            expr(&mut test, frame, condition)?;
            let mut turn = Draft::new(out.allocator());
            block(&mut turn, frame, body)?;
            out.repeat(test, turn)
        }
        Stmt::For(start, condition, step, body) => {
            counting(out, frame, start, condition, step, body)
        }
        Stmt::ForIn(key, name, list, body) => over_items(out, frame, key, name, list, body),
        Stmt::Fun(fun) => function(out, frame, fun),
        Stmt::Try(body, name, handler) => guarded(out, frame, body, name, handler),
        Stmt::Block(list) => block(out, frame, list),
    }
}

#[cycle(forms)]
fn assign<'t>(
    out: &mut Draft,
    frame: &Frame<'t>,
    target: &'t Expr,
    x: &'t Expr,
) -> Result<(), AllocError>
    requires { stm_nesting (Assign (exp_of target.now) (exp_of x.now)) ≤ deepest }
    ensures { OnOk result (AddsCode out.old out.new (stm_code frame.now (Assign (exp_of target.now) (exp_of x.now)))) }
{
    match target {
        Expr::Name(name) => {
            expr(out, frame, x)?;
            out.push(write(frame, &name.word))
        }
        Expr::Prop(base, word) => {
            expr(out, frame, base)?;
            out.push(Op::Str(word.copy()?))?;
            expr(out, frame, x)?;
            out.push(Op::SetProperty)
        }
        Expr::Index(base, key) => {
            expr(out, frame, base)?;
            expr(out, frame, key)?;
            expr(out, frame, x)?;
            out.push(Op::SetProperty)
        }
        _ => {
            expr(out, frame, target)?;
            expr(out, frame, x)?;
            out.push(Op::Pop)?;
            out.push(Op::Pop)
        }
    }
}

#[cycle(forms)]
fn choice<'t>(
    out: &mut Draft,
    frame: &mut Frame<'t>,
    condition: &'t Expr,
    body: &'t Stmts,
    other: &'t Option<Stmts>,
) -> Result<(), AllocError>
    requires { stm_nesting (If (exp_of condition.now) (stms_from body.now.list.items) (option_stms_from other.now)) ≤ deepest }
    ensures code { OnOk result (AddsCode out.old out.new
        (stm_code frame.old (If (exp_of condition.now) (stms_from body.now.list.items) (option_stms_from other.now)))) }
    ensures frame { OnOk result (frame.new ≡ frame.old) }
{
    expr(out, frame, condition)?;
    let mut chosen = Draft::new(out.allocator());
    block(&mut chosen, frame, body)?;
    match other {
        Some(list) => {
            let mut rest = Draft::new(out.allocator());
            block(&mut rest, frame, list)?;
            out.when_else(chosen, rest)
        }
        None => out.when(chosen),
    }
}

#[cycle(forms)]
fn counting<'t>(
    out: &mut Draft,
    frame: &mut Frame<'t>,
    start: &'t Option<Box<Stmt>>,
    condition: &'t Option<Expr>,
    step: &'t Option<Box<Stmt>>,
    body: &'t Stmts,
) -> Result<(), AllocError>
    requires { stm_nesting (For (option_stm_from start.now) (option_exp_from condition.now) (option_stm_from step.now) (stms_from body.now.list.items)) ≤ deepest }
    ensures code { OnOk result (AddsCode out.old out.new
        (stm_code frame.old (For (option_stm_from start.now) (option_exp_from condition.now) (option_stm_from step.now) (stms_from body.now.list.items)))) }
    ensures frame { OnOk result (frame.new ≡ frame.old) }
{
    let count = frame.len();
    option_stmt(out, frame, start)?;
    frame.declare_start(start)?;
    let mut test = Draft::new(out.allocator());
    value(&mut test, frame, condition, Op::PushTrue)?;
    let mut turn = Draft::new(out.allocator());
    block(&mut turn, frame, body)?;
    option_stmt(&mut turn, frame, step)?;
    step_pop(&mut turn, step)?;
    out.repeat(test, turn)?;
    start_pop(out, start, condition, step, body)?;
    frame.leave(count);
    Ok(())
}

#[cycle(forms)]
fn over_items<'t>(
    out: &mut Draft,
    frame: &mut Frame<'t>,
    key: &'t Option<Named>,
    name: &'t Named,
    list: &'t Expr,
    body: &'t Stmts,
) -> Result<(), AllocError>
    requires { stm_nesting (ForIn (option_word_of key.now) name.now.word (exp_of list.now) (stms_from body.now.list.items)) ≤ deepest }
    ensures code { OnOk result (AddsCode out.old out.new
        (stm_code frame.old (ForIn (option_word_of key.now) name.now.word (exp_of list.now) (stms_from body.now.list.items)))) }
    ensures frame { OnOk result (frame.new ≡ frame.old) }
{
    let first = frame.len();
    expr(out, frame, list)?;
    frame.hide(4 + key_count(key))?;
    frame.declare_key(key)?;
    frame.declare(&name.word)?;
    let mut turn = Draft::new(out.allocator());
    block(&mut turn, frame, body)?;
    out.for_in(key, name, first, turn, body)?;
    frame.leave(first);
    Ok(())
}

#[cycle(forms)]
fn function<'t>(out: &mut Draft, frame: &mut Frame<'t>, fun: &'t FunTree) -> Result<(), AllocError>
    requires { stm_nesting (Fun fun.now.name.word (words_of fun.now.params) (stms_from fun.now.body.list.items)) ≤ deepest }
    ensures code { OnOk result (AddsCode out.old out.new
        (stm_code frame.old (Fun fun.now.name.word (words_of fun.now.params) (stms_from fun.now.body.list.items)))) }
    ensures frame { OnOk result (frame.new ≡ frame.old) }
{
    let alloc = out.allocator();
    let count = frame.len();
    frame.declare(&fun.name.word)?;
    let captured = Captured::by_fun(alloc, frame, fun)?;
    let captures = captured.captures(alloc, frame)?;
    frame.leave(count);
    let mut inner = Frame::inner(alloc, &fun.params, captured)?;
    let mut code = Draft::new(alloc);
    stmts(&mut code, &mut inner, &fun.body)?;
    code.return_null()?;
    out.function(fun.name.word.copy()?, &fun.params, captures, code)
}

#[cycle(forms)]
fn guarded<'t>(
    out: &mut Draft,
    frame: &mut Frame<'t>,
    body: &'t Stmts,
    name: &'t Named,
    handler: &'t Stmts,
) -> Result<(), AllocError>
    requires { stm_nesting (Try (stms_from body.now.list.items) name.now.word (stms_from handler.now.list.items)) ≤ deepest }
    ensures code { OnOk result (AddsCode out.old out.new
        (stm_code frame.old (Try (stms_from body.now.list.items) name.now.word (stms_from handler.now.list.items)))) }
    ensures frame { OnOk result (frame.new ≡ frame.old) }
{
    let count = frame.len();
    let mut tried = Draft::new(out.allocator());
    block(&mut tried, frame, body)?;
    frame.declare(&name.word)?;
    let mut caught = Draft::new(out.allocator());
    block(&mut caught, frame, handler)?;
    word_pop(&mut caught, name, handler)?;
    frame.leave(count);
    out.attempt(tried, caught)
}

// Statements as a scope of their own.
#[cycle(forms)]
fn block<'t>(out: &mut Draft, frame: &mut Frame<'t>, ss: &'t Stmts) -> Result<(), AllocError>
    requires { stms_nesting (stms_from ss.now.list.items) ≤ deepest }
    ensures code { OnOk result (AddsCode out.old out.new (block_code frame.old (stms_from ss.now.list.items))) }
    ensures frame { OnOk result (frame.new ≡ frame.old) }
{
    stmts(out, frame, ss)?;
    block_pops(out, &ss.list)
}

/// Statements, whose locals stay.
#[cycle(forms)]
pub fn stmts<'t>(out: &mut Draft, frame: &mut Frame<'t>, ss: &'t Stmts) -> Result<(), AllocError>
    requires { stms_nesting (stms_from ss.now.list.items) ≤ deepest }
    ensures code { OnOk result (AddsCode out.old out.new (stms_code frame.old (stms_from ss.now.list.items))) }
    ensures frame { OnOk result (frame.new ≡ frame.old) }
{
    let count = frame.len();
    for s in &ss.list {
        stmt(out, frame, s)?;
        frame.declare_by(s)?;
    }
    frame.leave(count);
    Ok(())
}
