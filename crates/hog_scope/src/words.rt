//! The words of a tree in the order of the source, and where its scopes begin and end.

ghost use Rattle.std.specs.Prelude.{◌≡◌, ◌∷◌, [], map, option_to_list, OnOk, IfOk};
ghost use Rattle.std.specs.List.{filter_map};
ghost use Rattle.hog_tree.specs.View.{tree_of, words_of, option_word_of, dict_of};
ghost use Rattle.hog_scope.specs.Words.{stms_words, pairs_words, scope_of, declared, all_declared, declares, binds};
ghost use Rattle.hog_tree.specs.Names.{tree_names, dict_names, option_name, body_names, exp_names, stm_names};
ghost use Rattle.hog_scope.specs.Events.{event_of, name_in, AddsEvents, expr_words, exprs_words, exprs_names, template_words, template_names, arrow_words, value_words, value_names, stmt_words, stmts_words, stmts_names, start_words, step_words, boxed_names};

use hog_tree::tree::{
    ArrowBody, DictItems, Expr, Exprs, Named, Names, Part, Parts, Stmt, Stmts, Tree,
};
use hog_value::HogText;
use std::alloc::{AllocError, Global};

/// What comes next in the source.
#[derive(Clone, Copy, Drop)]
pub enum Event<'t> {
    /// A scope begins.
    Opens,
    /// The innermost scope ends.
    Closes,
    /// The innermost scope declares a name.
    Declares(&'t Named),
    /// The name that was declared is seen from here on.
    Binds(&'t Named),
    /// The value of a name is read.
    Reads(&'t Named),
    /// A name is given a value.
    Assigns(&'t Named),
    /// A name is called with so many arguments.
    Calls(&'t Named, usize),
    /// The name of a property, or a text as it stands in the program.
    Spells(&'t HogText),
}

fn put<'t>(out: &mut Vec<Event<'t>>, event: Event<'t>) -> Result<(), AllocError>
    ensures { OnOk result (AddsEvents out.old out.new (event_of event.entry ∷ []) (option_to_list (name_in event.entry))) }
{
    out.push(event)?;
    Ok(())
}

// A name that is seen at once.
fn declared<'t>(out: &mut Vec<Event<'t>>, name: &'t Named) -> Result<(), AllocError>
    ensures { OnOk result (AddsEvents out.old out.new (declared name.now.word) (name.now ∷ [])) }
{
    put(out, Event::Declares(name))?;
    put(out, Event::Binds(name))
}

// Names that are seen at once.
fn params<'t>(out: &mut Vec<Event<'t>>, names: &'t Names) -> Result<(), AllocError>
    ensures { OnOk result (AddsEvents out.old out.new (all_declared (words_of names.now)) names.now) }
{
    for name in names.items() {
        declared(out, name)?;
    }
    Ok(())
}

// A name that may be left out.
fn declares<'t>(out: &mut Vec<Event<'t>>, name: &'t Option<Named>) -> Result<(), AllocError>
    ensures { OnOk result (AddsEvents out.old out.new (declares (option_word_of name.now)) (option_name name.now)) }
{
    match name {
        Some(name) => put(out, Event::Declares(name)),
        None => Ok(()),
    }
}

fn binds<'t>(out: &mut Vec<Event<'t>>, name: &'t Option<Named>) -> Result<(), AllocError>
    ensures { OnOk result (AddsEvents out.old out.new (binds (option_word_of name.now)) []) }
{
    match name {
        Some(name) => put(out, Event::Binds(name)),
        None => Ok(()),
    }
}

#[cycle(words)]
fn expr<'t>(out: &mut Vec<Event<'t>>, e: &'t Expr) -> Result<(), AllocError>
    ensures { OnOk result (AddsEvents out.old out.new (expr_words e.now) (exp_names e.now)) }
{
    match e {
        Expr::Int(_) | Expr::Bool(_) | Expr::Null => Ok(()),
        Expr::Text(text) => put(out, Event::Spells(text)),
        Expr::Template(list) => parts(out, list),
        Expr::Name(name) => put(out, Event::Reads(name)),
        Expr::Array(list) => exprs(out, list),
        Expr::Dict(list) => dict_items(out, list),
        Expr::Neg(x) | Expr::Not(x) => expr(out, x),
        Expr::Binary(_, x, y) | Expr::Coalesce(x, y) | Expr::Index(x, y) => {
            expr(out, x)?;
            expr(out, y)
        }
        Expr::Prop(x, word) | Expr::PropNullish(x, word) => {
            expr(out, x)?;
            put(out, Event::Spells(word))
        }
        Expr::Call(callee, args) => {
            if let Expr::Name(name) = &**callee {
                put(out, Event::Calls(name, args.list.len()))?;
                return exprs(out, args);
            }
            expr(out, callee)?;
            exprs(out, args)
        }
        Expr::Lambda(names, body) => {
            put(out, Event::Opens)?;
            params(out, names)?;
            arrow_body(out, body)?;
            put(out, Event::Closes)
        }
    }
}

#[cycle(words)]
fn exprs<'t>(out: &mut Vec<Event<'t>>, es: &'t Exprs) -> Result<(), AllocError>
    ensures { OnOk result (AddsEvents out.old out.new (exprs_words es.now) (exprs_names es.now)) }
{
    for e in &es.list {
        expr(out, e)?;
    }
    Ok(())
}

#[cycle(words)]
fn parts<'t>(out: &mut Vec<Event<'t>>, ps: &'t Parts) -> Result<(), AllocError>
    ensures { OnOk result (AddsEvents out.old out.new (template_words ps.now) (template_names ps.now)) }
{
    for part in &ps.list {
        match part {
            Part::Text(text) => put(out, Event::Spells(text))?,
            Part::Hole(e) => expr(out, e)?,
        }
    }
    Ok(())
}

#[cycle(words)]
fn dict_items<'t>(out: &mut Vec<Event<'t>>, ds: &'t DictItems) -> Result<(), AllocError>
    ensures { OnOk result (AddsEvents out.old out.new (pairs_words (dict_of ds.now)) (dict_names ds.now)) }
{
    for item in &ds.list {
        expr(out, &item.key)?;
        expr(out, &item.value)?;
    }
    Ok(())
}

#[cycle(words)]
fn arrow_body<'t>(out: &mut Vec<Event<'t>>, body: &'t ArrowBody) -> Result<(), AllocError>
    ensures { OnOk result (AddsEvents out.old out.new (arrow_words body.now) (body_names body.now)) }
{
    match body {
        ArrowBody::One(e) => expr(out, e),
        ArrowBody::Block(list) => stmts(out, list),
    }
}

#[cycle(words)]
fn option_expr<'t>(out: &mut Vec<Event<'t>>, value: &'t Option<Expr>) -> Result<(), AllocError>
    ensures { OnOk result (AddsEvents out.old out.new (value_words value.now) (value_names value.now)) }
{
    match value {
        Some(e) => expr(out, e),
        None => Ok(()),
    }
}

#[cycle(words)]
fn option_stmt<'t>(out: &mut Vec<Event<'t>>, s: &'t Option<Box<Stmt>>) -> Result<(), AllocError>
    ensures { OnOk result (AddsEvents out.old out.new (start_words s.now) (boxed_names s.now)) }
{
    match s {
        Some(s) => stmt(out, s),
        None => Ok(()),
    }
}

// A step as a scope of its own.
#[cycle(words)]
fn option_step<'t>(out: &mut Vec<Event<'t>>, s: &'t Option<Box<Stmt>>) -> Result<(), AllocError>
    ensures { OnOk result (AddsEvents out.old out.new (step_words s.now) (boxed_names s.now)) }
{
    match s {
        Some(s) => {
            put(out, Event::Opens)?;
            stmt(out, s)?;
            put(out, Event::Closes)
        }
        None => Ok(()),
    }
}

#[cycle(words)]
fn stmt<'t>(out: &mut Vec<Event<'t>>, s: &'t Stmt) -> Result<(), AllocError>
    ensures { OnOk result (AddsEvents out.old out.new (stmt_words s.now) (stm_names s.now)) }
{
    match s {
        Stmt::Let(name, value) => {
            put(out, Event::Declares(name))?;
            option_expr(out, value)?;
            put(out, Event::Binds(name))
        }
        Stmt::Assign(target, value) => {
            if let Expr::Name(name) = target {
                put(out, Event::Assigns(name))?;
                return expr(out, value);
            }
            expr(out, target)?;
            expr(out, value)
        }
        Stmt::Do(e) | Stmt::Throw(e) => expr(out, e),
        Stmt::Return(value) => option_expr(out, value),
        Stmt::If(cond, then, other) => {
            expr(out, cond)?;
            block(out, then)?;
            match other {
                Some(list) => block(out, list),
                None => Ok(()),
            }
        }
        Stmt::While(cond, body) => {
            expr(out, cond)?;
            block(out, body)
        }
        Stmt::For(start, cond, step, body) => {
            put(out, Event::Opens)?;
            option_stmt(out, start)?;
            option_expr(out, cond)?;
            option_step(out, step)?;
            block(out, body)?;
            put(out, Event::Closes)
        }
        Stmt::ForIn(key, value, list, body) => {
            put(out, Event::Opens)?;
            declares(out, key)?;
            put(out, Event::Declares(value))?;
            expr(out, list)?;
            binds(out, key)?;
            put(out, Event::Binds(value))?;
            block(out, body)?;
            put(out, Event::Closes)
        }
        Stmt::Fun(fun) => {
            declared(out, &fun.name)?;
            put(out, Event::Opens)?;
            params(out, &fun.params)?;
            stmts(out, &fun.body)?;
            put(out, Event::Closes)
        }
        Stmt::Try(body, name, handler) => {
            block(out, body)?;
            put(out, Event::Opens)?;
            declared(out, name)?;
            block(out, handler)?;
            put(out, Event::Closes)
        }
        Stmt::Block(list) => block(out, list),
    }
}

#[cycle(words)]
fn stmts<'t>(out: &mut Vec<Event<'t>>, ss: &'t Stmts) -> Result<(), AllocError>
    ensures { OnOk result (AddsEvents out.old out.new (stmts_words ss.now) (stmts_names ss.now)) }
{
    for s in &ss.list {
        stmt(out, s)?;
    }
    Ok(())
}

// Statements as a scope of their own.
#[cycle(words)]
fn block<'t>(out: &mut Vec<Event<'t>>, ss: &'t Stmts) -> Result<(), AllocError>
    ensures { OnOk result (AddsEvents out.old out.new (scope_of (stmts_words ss.now)) (stmts_names ss.now)) }
{
    put(out, Event::Opens)?;
    stmts(out, ss)?;
    put(out, Event::Closes)
}

/// The words of a tree, in the order of the source.
pub fn words<'t>(alloc: Global, t: &'t Tree) -> Result<Vec<Event<'t>>, AllocError>
    ensures words { IfOk result (λ v. map event_of v.items ≡ stms_words (tree_of t.now)) }
    ensures names { IfOk result (λ v. filter_map name_in v.items ≡ tree_names t.now) }
{
    let mut out = Vec::new(alloc);
    stmts(&mut out, &t.stmts)?;
    Ok(out)
}
