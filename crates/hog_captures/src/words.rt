//! The free words of a function, found in the order of the text.

ghost use Rattle.std.specs.Prelude.{true, OnOk};
ghost use Rattle.hog_tree.specs.View.{dict_of, exp_of, stm_of, body_of, exps_from, parts_from, stms_from, option_exp_from, option_stm_from, option_stms_from};
ghost use Rattle.hog_captures.specs.Frees.{exp_frees, exps_frees, parts_frees, pairs_frees, body_frees, stm_frees, stms_frees, option_exp_frees, option_stm_frees, option_stms_frees};
ghost use Rattle.hog_captures.specs.Finding.{Finds};

use crate::declared::{declared_by, start_name};
use crate::finder::Finder;
use hog_tree::tree::{ArrowBody, DictItems, Expr, Exprs, Part, Parts, Stmt, Stmts};
use std::alloc::AllocError;

#[cycle(words)]
fn expr<'f, 't>(finder: &mut Finder<'f, 't>, e: &'t Expr) -> Result<(), AllocError>
    ensures { OnOk result (Finds finder.old finder.new (exp_frees true (exp_of e.now))) }
{
    match e {
        Expr::Int(_) | Expr::Bool(_) | Expr::Null | Expr::Text(_) => Ok(()),
        Expr::Template(list) => parts(finder, list),
        Expr::Name(name) => finder.word(&name.word),
        Expr::Array(list) => exprs(finder, list),
        Expr::Dict(list) => dict_items(finder, list),
        Expr::Neg(x) | Expr::Not(x) | Expr::Prop(x, _) | Expr::PropNullish(x, _) => expr(finder, x),
        Expr::Binary(_, x, y) | Expr::Coalesce(x, y) | Expr::Index(x, y) => {
            expr(finder, x)?;
            expr(finder, y)
        }
        Expr::Call(callee, args) => {
            expr(finder, callee)?;
            exprs(finder, args)
        }
        Expr::Lambda(params, body) => {
            let depth = finder.depth();
            finder.bind_all(params)?;
            arrow_body(finder, body)?;
            finder.unbind(depth);
            Ok(())
        }
    }
}

#[cycle(words)]
fn exprs<'f, 't>(finder: &mut Finder<'f, 't>, es: &'t Exprs) -> Result<(), AllocError>
    ensures { OnOk result (Finds finder.old finder.new (exps_frees true (exps_from es.now.list.items))) }
{
    for e in &es.list {
        expr(finder, e)?;
    }
    Ok(())
}

#[cycle(words)]
fn parts<'f, 't>(finder: &mut Finder<'f, 't>, ps: &'t Parts) -> Result<(), AllocError>
    ensures { OnOk result (Finds finder.old finder.new (parts_frees true (parts_from ps.now.list.items))) }
{
    for part in &ps.list {
        match part {
            Part::Text(_) => {}
            Part::Hole(e) => expr(finder, e)?,
        }
    }
    Ok(())
}

#[cycle(words)]
fn dict_items<'f, 't>(finder: &mut Finder<'f, 't>, ds: &'t DictItems) -> Result<(), AllocError>
    ensures { OnOk result (Finds finder.old finder.new (pairs_frees true (dict_of ds.now))) }
{
    for item in &ds.list {
        expr(finder, &item.key)?;
        expr(finder, &item.value)?;
    }
    Ok(())
}

/// Finds the free words of what stands after an arrow.
#[cycle(words)]
pub fn arrow_body<'f, 't>(
    finder: &mut Finder<'f, 't>,
    body: &'t ArrowBody,
) -> Result<(), AllocError>
    ensures { OnOk result (Finds finder.old finder.new (body_frees (body_of body.now))) }
{
    match body {
        ArrowBody::One(e) => expr(finder, e),
        ArrowBody::Block(list) => stmts(finder, list),
    }
}

#[cycle(words)]
fn option_expr<'f, 't>(
    finder: &mut Finder<'f, 't>,
    value: &'t Option<Expr>,
) -> Result<(), AllocError>
    ensures { OnOk result (Finds finder.old finder.new (option_exp_frees true (option_exp_from value.now))) }
{
    match value {
        Some(e) => expr(finder, e),
        None => Ok(()),
    }
}

#[cycle(words)]
fn option_stmt<'f, 't>(
    finder: &mut Finder<'f, 't>,
    s: &'t Option<Box<Stmt>>,
) -> Result<(), AllocError>
    ensures { OnOk result (Finds finder.old finder.new (option_stm_frees true (option_stm_from s.now))) }
{
    match s {
        Some(s) => stmt(finder, s),
        None => Ok(()),
    }
}

#[cycle(words)]
fn option_stmts<'f, 't>(
    finder: &mut Finder<'f, 't>,
    ss: &'t Option<Stmts>,
) -> Result<(), AllocError>
    ensures { OnOk result (Finds finder.old finder.new (option_stms_frees true (option_stms_from ss.now))) }
{
    match ss {
        Some(list) => stmts(finder, list),
        None => Ok(()),
    }
}

#[cycle(words)]
fn stmt<'f, 't>(finder: &mut Finder<'f, 't>, s: &'t Stmt) -> Result<(), AllocError>
    ensures { OnOk result (Finds finder.old finder.new (stm_frees true (stm_of s.now))) }
{
    match s {
        Stmt::Let(_, value) => option_expr(finder, value),
        Stmt::Return(value) => option_expr(finder, value),
        Stmt::Assign(target, value) => {
            expr(finder, target)?;
            expr(finder, value)
        }
        Stmt::Do(e) | Stmt::Throw(e) => expr(finder, e),
        Stmt::If(cond, then, other) => {
            expr(finder, cond)?;
            stmts(finder, then)?;
            option_stmts(finder, other)
        }
        Stmt::While(cond, body) => {
            expr(finder, cond)?;
            stmts(finder, body)
        }
        Stmt::For(start, cond, step, body) => {
            option_stmt(finder, start)?;
            let depth = finder.depth();
            finder.bind_name(start_name(start))?;
            option_expr(finder, cond)?;
            option_stmt(finder, step)?;
            stmts(finder, body)?;
            finder.unbind(depth);
            Ok(())
        }
        Stmt::ForIn(key, value, list, body) => {
            expr(finder, list)?;
            let depth = finder.depth();
            finder.bind_name(key.as_ref())?;
            finder.bind(&value.word)?;
            stmts(finder, body)?;
            finder.unbind(depth);
            Ok(())
        }
        Stmt::Fun(fun) => {
            let depth = finder.depth();
            finder.bind(&fun.name.word)?;
            finder.bind_all(&fun.params)?;
            stmts(finder, &fun.body)?;
            finder.unbind(depth);
            Ok(())
        }
        Stmt::Try(body, name, handler) => {
            stmts(finder, body)?;
            let depth = finder.depth();
            finder.bind(&name.word)?;
            stmts(finder, handler)?;
            finder.unbind(depth);
            Ok(())
        }
        Stmt::Block(list) => stmts(finder, list),
    }
}

/// Finds the free words of statements that are a scope.
#[cycle(words)]
pub fn stmts<'f, 't>(finder: &mut Finder<'f, 't>, ss: &'t Stmts) -> Result<(), AllocError>
    ensures { OnOk result (Finds finder.old finder.new (stms_frees true (stms_from ss.now.list.items))) }
{
    let depth = finder.depth();
    for s in &ss.list {
        stmt(finder, s)?;
        finder.bind_name(declared_by(s))?;
    }
    finder.unbind(depth);
    Ok(())
}
