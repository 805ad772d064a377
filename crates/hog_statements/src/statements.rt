//! Reads statements from left to right, with `;` left out where it may be.

ghost use Rattle.std.specs.Prelude.{◌≡◌, ◌<◌, ◌≤◌, ◌+◌, ◌++◌, length, IfOk};
ghost use Rattle.hog_tree.specs.Names.{exp_names, stm_names};
ghost use Rattle.hog_tree.specs.Plain.{Throw, Block, NoneStm, SomeStm, NoneExp, SomeExp};
ghost use Rattle.hog_tree.specs.View.{word_of, option_word_of, exp_of, stm_of, option_exp_from, option_stm_from, option_stms_from};
ghost use Rattle.hog_reading.specs.Read.{wants, either_way, got, grown, braced};
ghost use Rattle.hog_reading.specs.ReadStatements.{readers, begun, ended, declared, plain, returned, condition, conditional, governed, otherwise, looped, over_each, run_through, block, optional, with_parameters, tried, in_parentheses};
ghost use Rattle.hog_terms.specs.Bound.{names_of};
ghost use Rattle.hog_terms.specs.View.{left, named_from, IsPlaced};
ghost use Rattle.hog_reading.specs.NamesOf.{stmts_names, option_exp_names, option_stm_names, option_stmts_names};
ghost use Rattle.hog_reading.specs.Gives.{Gives, followed, stmts_of};
ghost use Rattle.hog_terms.specs.Marks.{after_open, after_semi, after_close, after_function, after_catch, after_bound, is_target};

use hog_grammar::Tokens;
use hog_reading::blocks::{block, braced};
use hog_reading::found::{Found, Stop};
use hog_reading::parameters::names;
use hog_reading::readers::Readers;
use hog_terms::cursor::next;
use hog_terms::marks::{
    assign, close, else_word, ends_block, goes_on, let_word, open, open_brace, semi,
};
use hog_terms::term::Term;
use hog_terms::words::{Bound, bound_names, catch_name, function_name, name};
use hog_tree::tree::{Expr, FunTree, Stmt, Stmts};
use std::alloc::Global;

/// The start of a `for`, of height `room` at most.
#[tactic(auto, using(hog_reading::proofs::Unfold::start_one, hog_reading::proofs::Unfold::start_none), unfolding(hog_reading::specs::ReadStatements::start_of))]
fn start<R: Readers>(
    again: &R,
    alloc: Global,
    tokens: &Tokens,
    room: u32,
    at: usize,
) -> Result<Found<Stmt>, Stop>
    requires few { room ≤ 100 }
    requires deep { room ≤ R.levels again.now }
    ensures low { IfOk result (λ f. f.height ≤ room) }
    ensures gives { Gives stm_of tokens.now result ((readers room).start (left tokens.now at)) }
    ensures places { IfOk result (λ f. IsPlaced (stm_names f.tree) tokens.now at f.at) }
{
    if room == 0 {
        return Err(Stop::TooNested(at));
    }
    match let_word(tokens, at) {
        Some(after) => declaration(again, alloc, tokens, room - 1, after),
        None => plain(again, alloc, tokens, room - 1, at),
    }
}

/// The step of a `for`, of height `room` at most.
#[tactic(auto, using(hog_reading::proofs::Unfold::step_one, hog_reading::proofs::Unfold::step_none))]
fn step<R: Readers>(
    again: &R,
    alloc: Global,
    tokens: &Tokens,
    room: u32,
    at: usize,
) -> Result<Found<Stmt>, Stop>
    requires few { room ≤ 100 }
    requires deep { room ≤ R.levels again.now }
    ensures low { IfOk result (λ f. f.height ≤ room) }
    ensures gives { Gives stm_of tokens.now result ((readers room).step (left tokens.now at)) }
    ensures places { IfOk result (λ f. IsPlaced (stm_names f.tree) tokens.now at f.at) }
{
    if room == 0 {
        return Err(Stop::TooNested(at));
    }
    plain(again, alloc, tokens, room - 1, at)
}

/// The `;` after a statement, where it isn't left out.
fn ended(tokens: &Tokens, stmt: Found<Stmt>) -> Result<Found<Stmt>, Stop>
    ensures low { IfOk result (λ f. f.height ≡ stmt.height) }
    ensures gives { Gives stm_of tokens.now result (ended (got (stm_of stmt.tree) stmt.height (left tokens.now stmt.at))) }
    ensures places { IfOk result (λ f. stm_names f.tree ++ named_from tokens.now f.at ≡ stm_names stmt.tree ++ named_from tokens.now stmt.at) }
{
    if let Some(at) = semi(tokens, stmt.at) {
        return Ok(Found {
            tree: stmt.tree,
            height: stmt.height,
            at,
        });
    }
    if goes_on(tokens, stmt.at) {
        return Err(Stop::Syntax(stmt.at));
    }
    Ok(stmt)
}

/// A statement, seen by its first token.
#[tactic(auto, unfolding(hog_reading::specs::ReadStatements::begun))]
pub fn begun<R: Readers>(
    again: &R,
    alloc: Global,
    tokens: &Tokens,
    room: u32,
    at: usize,
) -> Result<Found<Stmt>, Stop>
    requires few { room < 100 }
    requires deep { room ≤ R.levels again.now }
    ensures low { IfOk result (λ f. f.height ≤ room + 1) }
    ensures gives { Gives stm_of tokens.now result (begun (readers room) (left tokens.now at)) }
    ensures places { IfOk result (λ f. IsPlaced (stm_names f.tree) tokens.now at f.at) }
{
    let Some((term, after)) = next(tokens, at) else {
        return ended(tokens, plain(again, alloc, tokens, room, at)?);
    };
    match term {
        Term::Let => ended(tokens, declaration(again, alloc, tokens, room, after)?),
        Term::Return => return_of(again, alloc, tokens, room, after),
        Term::Throw => throw(again, alloc, tokens, room, after),
        Term::If => if_else(again, alloc, tokens, room, after),
        Term::While => while_loop(again, alloc, tokens, room, after),
        Term::For => for_loop(again, alloc, tokens, room, after),
        Term::Fun => function(again, alloc, tokens, room, after),
        Term::Try => try_catch(again, alloc, tokens, room, after),
        Term::OpenBrace => block_statement(again, alloc, tokens, room, after),
        _ => ended(tokens, plain(again, alloc, tokens, room, at)?),
    }
}

/// An assignment or an expression.
#[tactic(auto, unfolding(hog_reading::specs::ReadStatements::plain))]
fn plain<R: Readers>(
    again: &R,
    alloc: Global,
    tokens: &Tokens,
    room: u32,
    at: usize,
) -> Result<Found<Stmt>, Stop>
    requires few { room < 100 }
    requires deep { room ≤ R.levels again.now }
    ensures low { IfOk result (λ f. f.height ≤ room + 1) }
    ensures gives { Gives stm_of tokens.now result (plain (readers room) (left tokens.now at)) }
    ensures places { IfOk result (λ f. IsPlaced (stm_names f.tree) tokens.now at f.at) }
{
    let target = again.expression(alloc, tokens, room, 1, at)?;
    let Some(after) = assign(tokens, target.at) else {
        return Ok(Found {
            tree: Stmt::Do(target.tree),
            height: target.height + 1,
            at: target.at,
        });
    };
    if !is_target(&target.tree) {
        return Err(Stop::Syntax(target.at));
    }
    let value = again.expression(alloc, tokens, room, 1, after)?;
    Ok(Found {
        tree: Stmt::Assign(target.tree, value.tree),
        height: target.height.max(value.height) + 1,
        at: value.at,
    })
}

/// Whether an expression may be assigned to.
#[tactic(auto, using(hog_tree::proofs::Rows::template_is, hog_tree::proofs::Rows::array_is, hog_tree::proofs::Rows::call_is, hog_tree::proofs::Rows::dict_is))]
fn is_target(e: &Expr) -> bool
    ensures { result ≡ is_target (exp_of e.now) }
{
    match e {
        Expr::Name(_) | Expr::Prop(_, _) | Expr::Index(_, _) => true,
        Expr::Int(_) | Expr::Bool(_) | Expr::Null | Expr::Text(_) | Expr::Template(_) => false,
        Expr::Array(_) | Expr::Dict(_) | Expr::Neg(_) | Expr::Not(_) => false,
        Expr::Binary(_, _, _) | Expr::Coalesce(_, _) | Expr::PropNullish(_, _) => false,
        Expr::Call(_, _) | Expr::Lambda(_, _) => false,
    }
}

/// A declaration after its `let`, without its `;`.
fn declaration<R: Readers>(
    again: &R,
    alloc: Global,
    tokens: &Tokens,
    room: u32,
    at: usize,
) -> Result<Found<Stmt>, Stop>
    requires few { room < 100 }
    requires deep { room ≤ R.levels again.now }
    ensures low { IfOk result (λ f. f.height ≤ room + 1) }
    ensures gives { Gives stm_of tokens.now result (declared (readers room) (left tokens.now at)) }
    ensures places { IfOk result (λ f. IsPlaced (stm_names f.tree) tokens.now at f.at) }
{
    let Some((name, after)) = name(alloc, tokens, at)? else {
        return Err(Stop::Syntax(at));
    };
    let Some(begin) = assign(tokens, after) else {
        return Ok(Found {
            tree: Stmt::Let(name, None),
            height: 1,
            at: after,
        });
    };
    let value = again.expression(alloc, tokens, room, 1, begin)?;
    Ok(Found {
        tree: Stmt::Let(name, Some(value.tree)),
        height: value.height + 1,
        at: value.at,
    })
}

/// A `return` after its word.
fn return_of<R: Readers>(
    again: &R,
    alloc: Global,
    tokens: &Tokens,
    room: u32,
    at: usize,
) -> Result<Found<Stmt>, Stop>
    requires few { room < 100 }
    requires deep { room ≤ R.levels again.now }
    ensures low { IfOk result (λ f. f.height ≤ room + 1) }
    ensures gives { Gives stm_of tokens.now result (returned (readers room) (left tokens.now at)) }
    ensures places { IfOk result (λ f. IsPlaced (stm_names f.tree) tokens.now at f.at) }
{
    if let Some(at) = semi(tokens, at) {
        return Ok(Found {
            tree: Stmt::Return(None),
            height: 1,
            at,
        });
    }
    if ends_block(tokens, at) {
        return Ok(Found {
            tree: Stmt::Return(None),
            height: 1,
            at,
        });
    }
    let value = again.expression(alloc, tokens, room, 1, at)?;
    let stmt = Found {
        tree: Stmt::Return(Some(value.tree)),
        height: value.height + 1,
        at: value.at,
    };
    ended(tokens, stmt)
}

/// A `throw` after its word.
fn throw<R: Readers>(
    again: &R,
    alloc: Global,
    tokens: &Tokens,
    room: u32,
    at: usize,
) -> Result<Found<Stmt>, Stop>
    requires few { room < 100 }
    requires deep { room ≤ R.levels again.now }
    ensures low { IfOk result (λ f. f.height ≤ room + 1) }
    ensures gives { Gives stm_of tokens.now result (followed (followed ((readers room).expression 1 (left tokens.now at)) (grown Throw)) ended) }
    ensures places { IfOk result (λ f. IsPlaced (stm_names f.tree) tokens.now at f.at) }
{
    let value = again.expression(alloc, tokens, room, 1, at)?;
    let stmt = Found {
        tree: Stmt::Throw(value.tree),
        height: value.height + 1,
        at: value.at,
    };
    ended(tokens, stmt)
}

/// An expression and the parenthesis after it, which doesn't count for the height.
fn to_parenthesis<R: Readers>(
    again: &R,
    alloc: Global,
    tokens: &Tokens,
    room: u32,
    at: usize,
) -> Result<Found<Expr>, Stop>
    requires few { room < 100 }
    requires deep { room ≤ R.levels again.now }
    ensures low { IfOk result (λ f. f.height ≤ room) }
    ensures gives { Gives exp_of tokens.now result (followed ((readers room).expression 1 (left tokens.now at)) in_parentheses) }
    ensures places { IfOk result (λ f. IsPlaced (exp_names f.tree) tokens.now at f.at) }
{
    let e = again.expression(alloc, tokens, room, 1, at)?;
    match close(tokens, e.at) {
        Some(at) => Ok(Found {
            tree: e.tree,
            height: e.height,
            at,
        }),
        None => Err(Stop::Syntax(e.at)),
    }
}

/// An expression in parentheses, which don't count for the height.
fn condition<R: Readers>(
    again: &R,
    alloc: Global,
    tokens: &Tokens,
    room: u32,
    at: usize,
) -> Result<Found<Expr>, Stop>
    requires few { room < 100 }
    requires deep { room ≤ R.levels again.now }
    ensures low { IfOk result (λ f. f.height ≤ room) }
    ensures gives { Gives exp_of tokens.now result (condition (readers room) (left tokens.now at)) }
    ensures places { IfOk result (λ f. IsPlaced (exp_names f.tree) tokens.now at f.at) }
{
    match open(tokens, at) {
        Some(after) => to_parenthesis(again, alloc, tokens, room, after),
        None => Err(Stop::Syntax(at)),
    }
}

/// An `if` after its word, with its `else`.
#[tactic(auto, using(hog_tree::proofs::Rows::if_is))]
fn if_else<R: Readers>(
    again: &R,
    alloc: Global,
    tokens: &Tokens,
    room: u32,
    at: usize,
) -> Result<Found<Stmt>, Stop>
    requires few { room < 100 }
    requires deep { room ≤ R.levels again.now }
    ensures low { IfOk result (λ f. f.height ≤ room + 1) }
    ensures gives { Gives stm_of tokens.now result (followed (condition (readers room) (left tokens.now at)) (λ c. followed (governed (readers room) c.rest) (λ b. followed (otherwise (readers room) b.rest) (conditional c b)))) }
    ensures places { IfOk result (λ f. IsPlaced (stm_names f.tree) tokens.now at f.at) }
{
    let test = condition(again, alloc, tokens, room, at)?;
    let body = governed(again, alloc, tokens, room, test.at)?;
    let other = otherwise(again, alloc, tokens, room, body.at)?;
    Ok(Found {
        tree: Stmt::If(test.tree, body.tree, other.tree),
        height: test.height.max(body.height.max(other.height)) + 1,
        at: other.at,
    })
}

/// A `while` after its word.
#[tactic(auto, using(hog_tree::proofs::Rows::while_is))]
fn while_loop<R: Readers>(
    again: &R,
    alloc: Global,
    tokens: &Tokens,
    room: u32,
    at: usize,
) -> Result<Found<Stmt>, Stop>
    requires few { room < 100 }
    requires deep { room ≤ R.levels again.now }
    ensures low { IfOk result (λ f. f.height ≤ room + 1) }
    ensures gives { Gives stm_of tokens.now result (followed (condition (readers room) (left tokens.now at)) (λ c. followed (governed (readers room) c.rest) (looped c))) }
    ensures places { IfOk result (λ f. IsPlaced (stm_names f.tree) tokens.now at f.at) }
{
    let test = condition(again, alloc, tokens, room, at)?;
    let body = governed(again, alloc, tokens, room, test.at)?;
    Ok(Found {
        tree: Stmt::While(test.tree, body.tree),
        height: test.height.max(body.height) + 1,
        at: body.at,
    })
}

/// A `for` after its word.
fn for_loop<R: Readers>(
    again: &R,
    alloc: Global,
    tokens: &Tokens,
    room: u32,
    at: usize,
) -> Result<Found<Stmt>, Stop>
    requires few { room < 100 }
    requires deep { room ≤ R.levels again.now }
    ensures low { IfOk result (λ f. f.height ≤ room + 1) }
    ensures gives { Gives stm_of tokens.now result (wants (after_open (left tokens.now at)) (λ us. either_way (after_bound us) (over_each (readers room)) (run_through (readers room) us))) }
    ensures places { IfOk result (λ f. IsPlaced (stm_names f.tree) tokens.now at f.at) }
{
    let Some(begin) = open(tokens, at) else {
        return Err(Stop::Syntax(at));
    };
    match bound_names(alloc, tokens, begin)? {
        Some((names, after)) => for_each(again, alloc, tokens, room, names, after),
        None => for_steps(again, alloc, tokens, room, begin),
    }
}

/// A `for .. in` after its `in`.
#[tactic(auto, using(hog_tree::proofs::Rows::for_in_is))]
fn for_each<R: Readers>(
    again: &R,
    alloc: Global,
    tokens: &Tokens,
    room: u32,
    names: Bound,
    at: usize,
) -> Result<Found<Stmt>, Stop>
    requires few { room < 100 }
    requires deep { room ≤ R.levels again.now }
    ensures low { IfOk result (λ f. f.height ≤ room + 1) }
    ensures gives { Gives stm_of tokens.now result (over_each (readers room) ((option_word_of names.key, word_of names.value), left tokens.now at)) }
    ensures places { IfOk result (λ f. stm_names f.tree ++ named_from tokens.now f.at ≡ names_of names ++ named_from tokens.now at) }
{
    let items = to_parenthesis(again, alloc, tokens, room, at)?;
    let body = governed(again, alloc, tokens, room, items.at)?;
    Ok(Found {
        tree: Stmt::ForIn(names.key, names.value, items.tree, body.tree),
        height: items.height.max(body.height) + 1,
        at: body.at,
    })
}

/// A `for` with a start, a condition and a step, after its parenthesis.
#[tactic(auto, using(hog_tree::proofs::Rows::for_is), unfolding(hog_reading::specs::ReadStatements::run_through))]
fn for_steps<R: Readers>(
    again: &R,
    alloc: Global,
    tokens: &Tokens,
    room: u32,
    at: usize,
) -> Result<Found<Stmt>, Stop>
    requires few { room < 100 }
    requires deep { room ≤ R.levels again.now }
    ensures low { IfOk result (λ f. f.height ≤ room + 1) }
    ensures gives { Gives stm_of tokens.now result (run_through (readers room) (left tokens.now at)) }
    ensures places { IfOk result (λ f. IsPlaced (stm_names f.tree) tokens.now at f.at) }
{
    let first = optional_start(again, alloc, tokens, room, at)?;
    let test = optional_condition(again, alloc, tokens, room, first.at)?;
    let last = optional_step(again, alloc, tokens, room, test.at)?;
    let body = governed(again, alloc, tokens, room, last.at)?;
    let head = first.height.max(test.height.max(last.height));
    Ok(Found {
        tree: Stmt::For(first.tree, test.tree, last.tree, body.tree),
        height: head.max(body.height) + 1,
        at: body.at,
    })
}

/// The start of a `for`, which may be left out, and its `;`.
fn optional_start<R: Readers>(
    again: &R,
    alloc: Global,
    tokens: &Tokens,
    room: u32,
    at: usize,
) -> Result<Found<Option<Box<Stmt>>>, Stop>
    requires few { room < 100 }
    requires deep { room ≤ R.levels again.now }
    ensures low { IfOk result (λ f. f.height ≤ room) }
    ensures gives { Gives option_stm_from tokens.now result (optional NoneStm SomeStm after_semi (readers room).start (left tokens.now at)) }
    ensures places { IfOk result (λ f. IsPlaced (option_stm_names f.tree) tokens.now at f.at) }
{
    if let Some(at) = semi(tokens, at) {
        return Ok(Found {
            tree: None,
            height: 0,
            at,
        });
    }
    let stmt = start(again, alloc, tokens, room, at)?;
    match semi(tokens, stmt.at) {
        Some(at) => Ok(Found {
            tree: Some(Box::new(alloc, stmt.tree)?),
            height: stmt.height,
            at,
        }),
        None => Err(Stop::Syntax(stmt.at)),
    }
}

/// The condition of a `for`, which may be left out, and its `;`.
fn optional_condition<R: Readers>(
    again: &R,
    alloc: Global,
    tokens: &Tokens,
    room: u32,
    at: usize,
) -> Result<Found<Option<Expr>>, Stop>
    requires few { room < 100 }
    requires deep { room ≤ R.levels again.now }
    ensures low { IfOk result (λ f. f.height ≤ room) }
    ensures gives { Gives option_exp_from tokens.now result (optional NoneExp SomeExp after_semi ((readers room).expression 1) (left tokens.now at)) }
    ensures places { IfOk result (λ f. IsPlaced (option_exp_names f.tree) tokens.now at f.at) }
{
    if let Some(at) = semi(tokens, at) {
        return Ok(Found {
            tree: None,
            height: 0,
            at,
        });
    }
    let e = again.expression(alloc, tokens, room, 1, at)?;
    match semi(tokens, e.at) {
        Some(at) => Ok(Found {
            tree: Some(e.tree),
            height: e.height,
            at,
        }),
        None => Err(Stop::Syntax(e.at)),
    }
}

/// The step of a `for`, which may be left out, and the parenthesis after it.
fn optional_step<R: Readers>(
    again: &R,
    alloc: Global,
    tokens: &Tokens,
    room: u32,
    at: usize,
) -> Result<Found<Option<Box<Stmt>>>, Stop>
    requires few { room < 100 }
    requires deep { room ≤ R.levels again.now }
    ensures low { IfOk result (λ f. f.height ≤ room) }
    ensures gives { Gives option_stm_from tokens.now result (optional NoneStm SomeStm after_close (readers room).step (left tokens.now at)) }
    ensures places { IfOk result (λ f. IsPlaced (option_stm_names f.tree) tokens.now at f.at) }
{
    if let Some(at) = close(tokens, at) {
        return Ok(Found {
            tree: None,
            height: 0,
            at,
        });
    }
    let stmt = step(again, alloc, tokens, room, at)?;
    match close(tokens, stmt.at) {
        Some(at) => Ok(Found {
            tree: Some(Box::new(alloc, stmt.tree)?),
            height: stmt.height,
            at,
        }),
        None => Err(Stop::Syntax(stmt.at)),
    }
}

/// A function with a name, after `fun`.
#[tactic(auto, using(hog_tree::proofs::Rows::fun_is))]
fn function<R: Readers>(
    again: &R,
    alloc: Global,
    tokens: &Tokens,
    room: u32,
    at: usize,
) -> Result<Found<Stmt>, Stop>
    requires few { room < 100 }
    requires deep { room ≤ R.levels again.now }
    ensures low { IfOk result (λ f. f.height ≤ room + 1) }
    ensures gives { Gives stm_of tokens.now result (wants (after_function (left tokens.now at)) (with_parameters (readers room))) }
    ensures places { IfOk result (λ f. IsPlaced (stm_names f.tree) tokens.now at f.at) }
{
    let Some((name, after)) = function_name(alloc, tokens, at)? else {
        return Err(Stop::Syntax(at));
    };
    let params = names(alloc, tokens, after)?;
    let body = block(again, alloc, tokens, room, params.at)?;
    let height = params.height.max(body.height) + 1;
    let tree = Stmt::Fun(FunTree {
        name,
        params: params.tree,
        body: body.tree,
    });
    Ok(Found {
        tree,
        height,
        at: body.at,
    })
}

/// A `try` after its word, with its `catch`.
#[tactic(auto, using(hog_tree::proofs::Rows::try_is))]
fn try_catch<R: Readers>(
    again: &R,
    alloc: Global,
    tokens: &Tokens,
    room: u32,
    at: usize,
) -> Result<Found<Stmt>, Stop>
    requires few { room < 100 }
    requires deep { room ≤ R.levels again.now }
    ensures low { IfOk result (λ f. f.height ≤ room + 1) }
    ensures gives { Gives stm_of tokens.now result (followed (block (readers room) (left tokens.now at)) (λ b. wants (after_catch b.rest) (λ p. followed (block (readers room) p.1) (tried b p.0)))) }
    ensures places { IfOk result (λ f. IsPlaced (stm_names f.tree) tokens.now at f.at) }
{
    let body = block(again, alloc, tokens, room, at)?;
    let Some((name, after)) = catch_name(alloc, tokens, body.at)? else {
        return Err(Stop::Syntax(body.at));
    };
    let caught = block(again, alloc, tokens, room, after)?;
    Ok(Found {
        tree: Stmt::Try(body.tree, name, caught.tree),
        height: body.height.max(caught.height) + 1,
        at: caught.at,
    })
}

/// A block as a statement, after its brace.
#[tactic(auto, using(hog_tree::proofs::Rows::block_is, hog_reading::proofs::NameRows::block_names))]
fn block_statement<R: Readers>(
    again: &R,
    alloc: Global,
    tokens: &Tokens,
    room: u32,
    at: usize,
) -> Result<Found<Stmt>, Stop>
    requires few { room < 100 }
    requires deep { room ≤ R.levels again.now }
    ensures low { IfOk result (λ f. f.height ≤ room + 1) }
    ensures gives { Gives stm_of tokens.now result (followed (braced (readers room).statement (left tokens.now at)) (grown Block)) }
    ensures places { IfOk result (λ f. IsPlaced (stm_names f.tree) tokens.now at f.at) }
{
    let body = braced(again, alloc, tokens, room, at)?;
    Ok(Found {
        tree: Stmt::Block(body.tree),
        height: body.height + 1,
        at: body.at,
    })
}

/// What an `if`, an `else` or a loop governs: a block, `;`, or one statement.
#[tactic(auto, unfolding(hog_reading::specs::ReadStatements::governed))]
fn governed<R: Readers>(
    again: &R,
    alloc: Global,
    tokens: &Tokens,
    room: u32,
    at: usize,
) -> Result<Found<Stmts>, Stop>
    requires few { room < 100 }
    requires deep { room ≤ R.levels again.now }
    ensures low { IfOk result (λ f. f.height ≤ room) }
    ensures gives { Gives stmts_of tokens.now result (governed (readers room) (left tokens.now at)) }
    ensures places { IfOk result (λ f. IsPlaced (stmts_names f.tree) tokens.now at f.at) }
{
    if let Some(after) = open_brace(tokens, at) {
        return braced(again, alloc, tokens, room, after);
    }
    let mut list = Vec::new(alloc);
    if let Some(at) = semi(tokens, at) {
        return Ok(Found {
            tree: Stmts { list },
            height: 0,
            at,
        });
    }
    let stmt = again.statement(alloc, tokens, room, at)?;
    list.push(stmt.tree)?;
    Ok(Found {
        tree: Stmts { list },
        height: stmt.height,
        at: stmt.at,
    })
}

/// The `else` of an `if`, where it has one.
fn otherwise<R: Readers>(
    again: &R,
    alloc: Global,
    tokens: &Tokens,
    room: u32,
    at: usize,
) -> Result<Found<Option<Stmts>>, Stop>
    requires few { room < 100 }
    requires deep { room ≤ R.levels again.now }
    ensures low { IfOk result (λ f. f.height ≤ room) }
    ensures gives { Gives option_stms_from tokens.now result (otherwise (readers room) (left tokens.now at)) }
    ensures places { IfOk result (λ f. IsPlaced (option_stmts_names f.tree) tokens.now at f.at) }
{
    let Some(after) = else_word(tokens, at) else {
        return Ok(Found {
            tree: None,
            height: 0,
            at,
        });
    };
    let block = governed(again, alloc, tokens, room, after)?;
    Ok(Found {
        tree: Some(block.tree),
        height: block.height,
        at: block.at,
    })
}
