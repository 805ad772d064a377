//! Expressions, statements and programs.

ghost use Rattle.std.specs.Prelude.{◌≡◌, ◌++◌, OnOk, IfOk, codes};
ghost use Rattle.hog_tree.specs.Plain.{Dict, Text, Template, NoPart};
ghost use Rattle.hog_tree.specs.View.{exp_of, exps_from, part_of, parts_from, dict_of, body_of, stm_of, stms_from, option_exp_from, option_stm_from, tree_of};
ghost use Rattle.hog_printer.specs.Print.{held, form_of, is_compound, is_held_base, expression, items, parts, body, condition, clause, step, statement, lines, braced, within, printed};
ghost use Rattle.hog_printer.specs.View.{AddsText};

use crate::form::{form_of, is_compound, is_dict, is_held_base, is_held_body};
use crate::layout::{Layout, end_line, within};
use crate::quotes::{Quotes, quoted};
use crate::words::{bound, names, number, operator, word};
use hog_tree::tree::{ArrowBody, DictItem, DictItems, Expr, Exprs, Part, Parts, Stmt, Stmts, Tree};
use hog_value::HogText;
use std::alloc::{AllocError, Global};
use std::convert::AsStr;

// AddsText a text in its quotes.
fn text(out: &mut String, bytes: &HogText) -> Result<(), AllocError>
    ensures { OnOk result (AddsText out.old out.new (expression (Text bytes.now))) }
{
    out.push_str("'")?;
    quoted(out, Quotes::Text, bytes.as_str())?;
    Ok(out.push_str("'")?)
}

// AddsText an expression.
#[cycle(printer)]
#[tactic(auto, using(hog_tree::proofs::Rows::array_is, hog_tree::proofs::Rows::call_is, hog_tree::proofs::Rows::template_is))]
fn expr(out: &mut String, e: &Expr) -> Result<(), AllocError>
    ensures { OnOk result (AddsText out.old out.new (expression (exp_of e.now))) }
{
    match e {
        Expr::Int(n) => number(out, *n),
        Expr::Bool(true) => Ok(out.push_str("true")?),
        Expr::Bool(false) => Ok(out.push_str("false")?),
        Expr::Null => Ok(out.push_str("null")?),
        Expr::Text(bytes) => text(out, bytes),
        Expr::Template(list) => template(out, list),
        Expr::Name(name) => word(out, &name.word),
        Expr::Array(list) => exprs(out, "[", list, "]"),
        Expr::Dict(list) => dict(out, list),
        Expr::Neg(x) => prefix(out, "-", x),
        Expr::Not(x) => prefix(out, "not ", x),
        Expr::Binary(op, x, y) => {
            prefix(out, "", x)?;
            prefix(out, operator(*op), y)
        }
        Expr::Coalesce(x, y) => {
            prefix(out, "", x)?;
            prefix(out, " ?? ", y)
        }
        Expr::Prop(x, name) => property(out, x, ".", name),
        Expr::PropNullish(x, name) => property(out, x, "?.", name),
        Expr::Index(x, i) => {
            enclosed(out, is_held_base(form_of(x)), x)?;
            around(out, "[", i, "]")
        }
        Expr::Call(callee, list) => {
            prefix(out, "", callee)?;
            exprs(out, "(", list, ")")
        }
        Expr::Lambda(params, body) => {
            out.push_str("(")?;
            names(out, params)?;
            out.push_str(") -> ")?;
            arrow_body(out, body)
        }
    }
}

// AddsText a text and an operand.
#[cycle(printer)]
fn prefix(out: &mut String, before: &str, e: &Expr) -> Result<(), AllocError>
    ensures { OnOk result (AddsText out.old out.new
        (before.now ++ held (is_compound (form_of (exp_of e.now))) (expression (exp_of e.now)))) }
{
    out.push_str(before)?;
    enclosed(out, is_compound(form_of(e)), e)
}

// AddsText a base, a mark and the name of a property.
#[cycle(printer)]
fn property(out: &mut String, e: &Expr, mark: &str, name: &HogText) -> Result<(), AllocError>
    ensures { OnOk result (AddsText out.old out.new
        (held (is_held_base (form_of (exp_of e.now))) (expression (exp_of e.now))
        ++ (mark.now ++ name.now))) }
{
    enclosed(out, is_held_base(form_of(e)), e)?;
    out.push_str(mark)?;
    word(out, name)
}

// AddsText an expression between two texts.
#[cycle(printer)]
fn around(out: &mut String, before: &str, e: &Expr, after: &str) -> Result<(), AllocError>
    ensures { OnOk result (AddsText out.old out.new
        (before.now ++ (expression (exp_of e.now) ++ after.now))) }
{
    out.push_str(before)?;
    expr(out, e)?;
    Ok(out.push_str(after)?)
}

// AddsText an expression, in parentheses or without.
#[cycle(printer)]
fn enclosed(out: &mut String, parentheses: bool, e: &Expr) -> Result<(), AllocError>
    ensures { OnOk result (AddsText out.old out.new (held parentheses (expression (exp_of e.now)))) }
{
    if parentheses {
        around(out, "(", e, ")")
    } else {
        expr(out, e)
    }
}

// AddsText expressions with commas between them, between two texts.
#[cycle(printer)]
fn exprs(out: &mut String, before: &str, list: &Exprs, after: &str) -> Result<(), AllocError>
    ensures { OnOk result (AddsText out.old out.new
        (before.now ++ (items (exps_from list.now.list.items) ++ after.now))) }
{
    out.push_str(before)?;
    let mut comma = "";
    for e in &list.list {
        around(out, comma, e, "")?;
        comma = ", ";
    }
    Ok(out.push_str(after)?)
}

// AddsText characters of a template, or an expression in a hole.
#[cycle(printer)]
fn part(out: &mut String, p: &Part) -> Result<(), AllocError>
    ensures { OnOk result (AddsText out.old out.new (parts (part_of p.now NoPart))) }
{
    match p {
        Part::Text(bytes) => quoted(out, Quotes::Template, bytes.as_str()),
        Part::Hole(e) => around(out, "{", e, "}"),
    }
}

// AddsText a template.
#[cycle(printer)]
fn template(out: &mut String, list: &Parts) -> Result<(), AllocError>
    ensures { OnOk result (AddsText out.old out.new
        (expression (Template (parts_from list.now.list.items)))) }
{
    out.push_str("f'")?;
    for p in &list.list {
        part(out, p)?;
    }
    Ok(out.push_str("'")?)
}

// AddsText a text, a key and its value.
#[cycle(printer)]
fn dict_item(out: &mut String, before: &str, item: &DictItem) -> Result<(), AllocError>
    ensures { OnOk result (AddsText out.old out.new
        (before.now ++ (expression (exp_of item.now.key)
        ++ (codes ": " ++ expression (exp_of item.now.value))))) }
{
    around(out, before, &item.key, ": ")?;
    expr(out, &item.value)
}

// AddsText a dictionary.
#[cycle(printer)]
fn dict(out: &mut String, list: &DictItems) -> Result<(), AllocError>
    ensures { OnOk result (AddsText out.old out.new (expression (Dict (dict_of list.now)))) }
{
    out.push_str("{")?;
    let mut comma = "";
    for item in &list.list {
        dict_item(out, comma, item)?;
        comma = ", ";
    }
    Ok(out.push_str("}")?)
}

// AddsText what stands after an arrow.
#[cycle(printer)]
#[tactic(auto, using(hog_tree::proofs::Rows::body_is))]
fn arrow_body(out: &mut String, arrow: &ArrowBody) -> Result<(), AllocError>
    ensures { OnOk result (AddsText out.old out.new (body (body_of arrow.now))) }
{
    match arrow {
        ArrowBody::One(e) => enclosed(out, is_held_body(form_of(e)), e),
        ArrowBody::Block(list) => block(out, Layout::OneLine, list),
    }
}

// AddsText a declaration, an assignment or an expression, without a `;`. Any other statement adds nothing.
#[cycle(printer)]
fn simple(out: &mut String, s: &Stmt) -> Result<(), AllocError>
    ensures { OnOk result (AddsText out.old out.new (clause (stm_of s.now))) }
{
    match s {
        Stmt::Let(name, initial) => {
            out.push_str("let ")?;
            word(out, &name.word)?;
            match initial {
                Some(e) => around(out, " := ", e, ""),
                None => Ok(()),
            }
        }
        Stmt::Assign(target, value) => {
            expr(out, target)?;
            around(out, " := ", value, "")
        }
        Stmt::Do(e) => enclosed(out, is_dict(form_of(e)), e),
        Stmt::Return(_)
        | Stmt::Throw(_)
        | Stmt::If(_, _, _)
        | Stmt::While(_, _)
        | Stmt::For(_, _, _, _)
        | Stmt::ForIn(_, _, _, _)
        | Stmt::Fun(_)
        | Stmt::Try(_, _, _)
        | Stmt::Block(_) => Ok(()),
    }
}

// AddsText a start or a step, if there is one.
#[cycle(printer)]
fn optional(out: &mut String, s: &Option<Box<Stmt>>) -> Result<(), AllocError>
    ensures { OnOk result (AddsText out.old out.new (step (option_stm_from s.now))) }
{
    match s {
        Some(s) => simple(out, s),
        None => Ok(()),
    }
}

// AddsText a condition, if there is one.
#[cycle(printer)]
fn condition(out: &mut String, e: &Option<Expr>) -> Result<(), AllocError>
    ensures { OnOk result (AddsText out.old out.new (condition (option_exp_from e.now))) }
{
    match e {
        Some(e) => expr(out, e),
        None => Ok(()),
    }
}

// AddsText a statement, from its first byte to its last.
#[cycle(printer)]
#[tactic(auto, using(hog_tree::proofs::Rows::block_is))]
fn stmt(out: &mut String, at: Layout, s: &Stmt) -> Result<(), AllocError>
    ensures { OnOk result (AddsText out.old out.new (statement at (stm_of s.now))) }
{
    match s {
        Stmt::Let(_, _) | Stmt::Assign(_, _) | Stmt::Do(_) => {
            simple(out, s)?;
            Ok(out.push_str(";")?)
        }
        Stmt::Return(Some(e)) => around(out, "return ", e, ";"),
        Stmt::Return(None) => Ok(out.push_str("return;")?),
        Stmt::Throw(e) => around(out, "throw ", e, ";"),
        Stmt::If(cond, then, other) => {
            around(out, "if (", cond, ") ")?;
            block(out, at, then)?;
            match other {
                Some(list) => {
                    out.push_str(" else ")?;
                    block(out, at, list)
                }
                None => Ok(()),
            }
        }
        Stmt::While(cond, list) => {
            around(out, "while (", cond, ") ")?;
            block(out, at, list)
        }
        Stmt::For(start, cond, step, list) => {
            out.push_str("for (")?;
            optional(out, start)?;
            out.push_str("; ")?;
            condition(out, cond)?;
            out.push_str("; ")?;
            optional(out, step)?;
            out.push_str(") ")?;
            block(out, at, list)
        }
        Stmt::ForIn(key, value, e, list) => {
            out.push_str("for (let ")?;
            bound(out, key, value)?;
            around(out, " in ", e, ") ")?;
            block(out, at, list)
        }
        Stmt::Fun(fun) => {
            out.push_str("fun ")?;
            word(out, &fun.name.word)?;
            out.push_str("(")?;
            names(out, &fun.params)?;
            out.push_str(") ")?;
            block(out, at, &fun.body)
        }
        Stmt::Try(list, name, handler) => {
            out.push_str("try ")?;
            block(out, at, list)?;
            out.push_str(" catch (")?;
            word(out, &name.word)?;
            out.push_str(") ")?;
            block(out, at, handler)
        }
        Stmt::Block(list) => block(out, at, list),
    }
}

// AddsText statements in braces.
#[cycle(printer)]
fn block(out: &mut String, at: Layout, list: &Stmts) -> Result<(), AllocError>
    ensures { OnOk result (AddsText out.old out.new
        (braced at (lines (within at) (stms_from list.now.list.items)))) }
{
    let inner = within(at)?;
    out.push_str("{")?;
    for s in &list.list {
        end_line(out, inner)?;
        stmt(out, inner, s)?;
    }
    end_line(out, at)?;
    Ok(out.push_str("}")?)
}

/// The printed text of a tree: one statement a line, with four spaces for each block round it.
pub fn print_tree(alloc: Global, tree: &Tree) -> Result<HogText, AllocError>
    ensures text { IfOk result (λ t. t ≡ printed (tree_of tree.now)) }
{
    let mut out = String::new(alloc);
    for s in &tree.stmts.list {
        stmt(&mut out, Layout::Lines(0), s)?;
        out.push_str("\n")?;
    }
    Ok(HogText::from_string(out))
}
