//! Whether functions in parts of a program take a word from outside of these parts.

ghost use Rattle.std.specs.Prelude.{◌≡◌, ◌++◌, true, false};
ghost use Rattle.std.specs.Option.{option_map};
ghost use Rattle.hog_tree.specs.View.{dict_of, words_of, option_word_of, exp_of, stm_of, body_of, exps_from, parts_from, pairs_from, stms_from, option_exp_from, option_stm_from, option_stms_from};
ghost use Rattle.hog_captures.specs.View.{is_name};
ghost use Rattle.hog_captures.specs.Frees.{is_among, without_all, name_by, option_name_by, exp_frees, exps_frees, parts_frees, pairs_frees, body_frees, stm_frees, stms_frees, option_exp_frees, option_stm_frees, option_stms_frees};

use crate::declared::{declared_by, start_name};
use hog_tree::tree::{
    ArrowBody, DictItems, Expr, Exprs, FunTree, Named, Names, Part, Parts, Stmt, Stmts,
};
use hog_value::HogText;

// Whether the word is one of these names.
fn is_one(word: &HogText, names: &Names) -> bool
    ensures { result ≡ is_among word.now (words_of names.now) }
{
    for name in names.items() {
        if name.word == *word {
            return true;
        }
    }
    false
}

// Whether the word is this name, where there is one.
fn is_named(word: &HogText, name: Option<&Named>) -> bool
    ensures { result ≡ is_name word.now (option_map (λ n. n.now.word) name.entry) }
{
    match name {
        Some(name) => name.word == *word,
        None => false,
    }
}

// In the functions below `counted` says whether a word by itself counts: it does in a function.

#[cycle(takes)]
fn expr(word: &HogText, counted: bool, e: &Expr) -> bool
    ensures { result ≡ is_among word.now (exp_frees counted (exp_of e.now)) }
{
    match e {
        Expr::Int(_) | Expr::Bool(_) | Expr::Null | Expr::Text(_) => false,
        Expr::Template(list) => parts(word, counted, list),
        Expr::Name(name) => counted && name.word == *word,
        Expr::Array(list) => exprs(word, counted, list),
        Expr::Dict(list) => dict_items(word, counted, list),
        Expr::Neg(x) | Expr::Not(x) | Expr::Prop(x, _) | Expr::PropNullish(x, _) => {
            expr(word, counted, x)
        }
        Expr::Binary(_, x, y) | Expr::Coalesce(x, y) | Expr::Index(x, y) => {
            expr(word, counted, x) || expr(word, counted, y)
        }
        Expr::Call(callee, args) => expr(word, counted, callee) || exprs(word, counted, args),
        Expr::Lambda(params, body) => !is_one(word, params) && arrow_body(word, body),
    }
}

#[cycle(takes)]
fn exprs(word: &HogText, counted: bool, es: &Exprs) -> bool
    ensures { result ≡ is_among word.now (exps_frees counted (exps_from es.now.list.items)) }
{
    for e in &es.list {
        if expr(word, counted, e) {
            return true;
        }
    }
    false
}

#[cycle(takes)]
fn parts(word: &HogText, counted: bool, ps: &Parts) -> bool
    ensures { result ≡ is_among word.now (parts_frees counted (parts_from ps.now.list.items)) }
{
    for part in &ps.list {
        if let Part::Hole(e) = part {
            if expr(word, counted, e) {
                return true;
            }
        }
    }
    false
}

#[cycle(takes)]
fn dict_items(word: &HogText, counted: bool, ds: &DictItems) -> bool
    ensures { result ≡ is_among word.now (pairs_frees counted (dict_of ds.now)) }
{
    for item in &ds.list {
        if expr(word, counted, &item.key) || expr(word, counted, &item.value) {
            return true;
        }
    }
    false
}

#[cycle(takes)]
fn arrow_body(word: &HogText, body: &ArrowBody) -> bool
    ensures { result ≡ is_among word.now (body_frees (body_of body.now)) }
{
    match body {
        ArrowBody::One(e) => expr(word, true, e),
        ArrowBody::Block(list) => stmts(word, true, list),
    }
}

#[cycle(takes)]
fn option_expr(word: &HogText, counted: bool, value: &Option<Expr>) -> bool
    ensures { result ≡ is_among word.now (option_exp_frees counted (option_exp_from value.now)) }
{
    match value {
        Some(e) => expr(word, counted, e),
        None => false,
    }
}

#[cycle(takes)]
fn option_stmt(word: &HogText, counted: bool, s: &Option<Box<Stmt>>) -> bool
    ensures { result ≡ is_among word.now (option_stm_frees counted (option_stm_from s.now)) }
{
    match s {
        Some(s) => stmt(word, counted, s),
        None => false,
    }
}

#[cycle(takes)]
fn option_stmts(word: &HogText, counted: bool, ss: &Option<Stmts>) -> bool
    ensures { result ≡ is_among word.now (option_stms_frees counted (option_stms_from ss.now)) }
{
    match ss {
        Some(list) => stmts(word, counted, list),
        None => false,
    }
}

#[cycle(takes)]
fn stmt(word: &HogText, counted: bool, s: &Stmt) -> bool
    ensures { result ≡ is_among word.now (stm_frees counted (stm_of s.now)) }
{
    match s {
        Stmt::Let(_, value) | Stmt::Return(value) => option_expr(word, counted, value),
        Stmt::Assign(target, value) => expr(word, counted, target) || expr(word, counted, value),
        Stmt::Do(e) | Stmt::Throw(e) => expr(word, counted, e),
        Stmt::If(cond, then, other) => {
            expr(word, counted, cond)
                || (stmts(word, counted, then) || option_stmts(word, counted, other))
        }
        Stmt::While(cond, body) => expr(word, counted, cond) || stmts(word, counted, body),
        Stmt::For(start, cond, step, body) => {
            option_stmt(word, counted, start)
                || !is_named(word, start_name(start))
                    && (option_expr(word, counted, cond)
                        || (option_stmt(word, counted, step) || stmts(word, counted, body)))
        }
        Stmt::ForIn(key, value, list, body) => {
            expr(word, counted, list)
                || !is_named(word, key.as_ref())
                    && (!(value.word == *word) && stmts(word, counted, body))
        }
        Stmt::Fun(fun) => {
            !(fun.name.word == *word)
                && (!is_one(word, &fun.params) && stmts(word, true, &fun.body))
        }
        Stmt::Try(body, name, handler) => {
            stmts(word, counted, body) || !(name.word == *word) && stmts(word, counted, handler)
        }
        Stmt::Block(list) => stmts(word, counted, list),
    }
}

#[cycle(takes)]
fn stmts(word: &HogText, counted: bool, ss: &Stmts) -> bool
    ensures { result ≡ is_among word.now (stms_frees counted (stms_from ss.now.list.items)) }
{
    for s in &ss.list {
        if stmt(word, counted, s) {
            return true;
        }
        if is_named(word, declared_by(s)) {
            return false;
        }
    }
    false
}

/// Whether functions in these statements take the word from outside of them. Takes no memory.
pub fn stmts_take(word: &HogText, list: &[Stmt]) -> bool
    ensures { result ≡ is_among word.now (stms_frees false (stms_from list.now)) }
{
    for s in list {
        if stmt(word, false, s) {
            return true;
        }
        if is_named(word, declared_by(s)) {
            return false;
        }
    }
    false
}

#[tactic(auto, using(crate::proofs::Among::amongs))]
/// Whether the function of a `fun` takes the word, which may be its own name. Takes no memory.
pub fn fun_takes(word: &HogText, fun: &FunTree) -> bool
    ensures { result ≡ is_among word.now (without_all (words_of fun.now.params) (stms_frees true (stms_from fun.now.body.list.items))) }
{
    !is_one(word, &fun.params) && stmts(word, true, &fun.body)
}

#[tactic(auto, using(crate::proofs::Among::amongs))]
/// Whether functions in the condition, the step and the block of a `for` take the word. Takes no memory.
pub fn for_takes(
    word: &HogText,
    cond: &Option<Expr>,
    step: &Option<Box<Stmt>>,
    body: &Stmts,
) -> bool
    ensures { result ≡ is_among word.now (option_exp_frees false (option_exp_from cond.now)
        ++ (option_stm_frees false (option_stm_from step.now) ++ stms_frees false (stms_from body.now.list.items))) }
{
    option_expr(word, false, cond) || (option_stmt(word, false, step) || stmts(word, false, body))
}
