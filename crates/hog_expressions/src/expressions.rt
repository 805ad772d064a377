//! Reads expressions from left to right, with one token of lookahead.

ghost use Rattle.std.specs.Prelude.{◌≡◌, ◌<◌, ◌≤◌, ◌+◌, ◌-◌, ◌∷◌, ◌++◌, length, IfOk, true, false, Ok, suc};
ghost use Rattle.hog_tree.specs.Names.{exp_names, body_names};
ghost use Rattle.hog_tree.specs.Plain.{Name, Template, Array, Dict, Neg, Not, Coalesce, Prop, PropNullish};
ghost use Rattle.hog_tree.specs.View.{word_of, words_of, exp_of, body_of};
ghost use Rattle.hog_reading.specs.Read.{either_way, wants, got, grown, first, step, climb, listing, exps, pairs, entry, parts, body, arrowed, arrow, short_arrow, closed, joined, binary, indexed, called};
ghost use Rattle.hog_reading.specs.ReadStatements.{readers};
ghost use Rattle.hog_terms.specs.View.{left, names_from, named_from, IsPlaced};
ghost use Rattle.hog_reading.specs.NamesOf.{list_names, entry_names, entries_names};
ghost use Rattle.hog_terms.specs.Listed.{comma_of, shut_of};
ghost use Rattle.hog_reading.specs.Gives.{Gives, followed, list_of, entry_of, entries_of, holed};
ghost use Rattle.hog_terms.specs.Marks.{after_close, after_close_bracket, after_close_brace, after_arrow, after_word};

use hog_grammar::Tokens;
use hog_reading::blocks::braced;
use hog_reading::found::{Found, Stop};
use hog_reading::parameters::names;
use hog_reading::readers::Readers;
use hog_terms::cursor::next;
use hog_terms::listed::{Closer, Follow, PartMark, closing, following, part_at};
use hog_terms::literals::{characters, number, quoted};
use hog_terms::marks::{
    arrow, arrow_fault, begins_arrow, close, close_bracket, colon, hole, infix_at, lead_level,
    level_of, open_brace, remaining,
};
use hog_terms::term::Term;
use hog_terms::words::{name_of, property};
use hog_tree::tree::{
    ArrowBody, BinaryOp, DictItem, DictItems, Expr, Exprs, Named, Names, Part, Parts,
};
use std::alloc::Global;

/// An expression of this level and of height `room` at most, its parts read by `again`.
#[tactic(auto, using(hog_reading::proofs::Unfold::expression_one))]
pub fn leveled<R: Readers>(
    again: &R,
    alloc: Global,
    tokens: &Tokens,
    room: u32,
    level: u32,
    at: usize,
) -> Result<Found<Expr>, Stop>
    requires some { 0 < room }
    requires few { room ≤ 100 }
    requires deep { room ≤ R.levels again.now + 1 }
    ensures low { IfOk result (λ f. f.height ≤ room) }
    ensures gives { Gives exp_of tokens.now result ((readers room).expression level (left tokens.now at)) }
    ensures places { IfOk result (λ f. IsPlaced (exp_names f.tree) tokens.now at f.at) }
{
    let begun = operand(again, alloc, tokens, room - 1, level, at)?;
    operators(again, alloc, tokens, room, level, begun)
}

/// A tree of height 1. Takes no memory.
fn leaf(tree: Expr, at: usize) -> Found<Expr>
    ensures { result ≡ record { tree = tree; height = 1; at = at } }
{
    Found {
        tree,
        height: 1,
        at,
    }
}

/// An expression without operators after it.
#[tactic(auto, unfolding(hog_reading::specs::Read::first))]
fn operand<R: Readers>(
    again: &R,
    alloc: Global,
    tokens: &Tokens,
    room: u32,
    level: u32,
    at: usize,
) -> Result<Found<Expr>, Stop>
    requires few { room < 100 }
    requires deep { room ≤ R.levels again.now }
    ensures low { IfOk result (λ f. f.height ≤ room + 1) }
    ensures gives { Gives exp_of tokens.now result (first (readers room) level (left tokens.now at)) }
    ensures places { IfOk result (λ f. IsPlaced (exp_names f.tree) tokens.now at f.at) }
{
    let Some((term, after)) = next(tokens, at) else {
        return Err(Stop::Syntax(at));
    };
    match term {
        Term::Number(digits) => Ok(leaf(Expr::Int(number(digits)), after)),
        Term::Text(bytes) => Ok(leaf(Expr::Text(quoted(alloc, bytes)?), after)),
        Term::True => Ok(leaf(Expr::Bool(true), after)),
        Term::False => Ok(leaf(Expr::Bool(false), after)),
        Term::Null => Ok(leaf(Expr::Null, after)),
        Term::Word(bytes) => {
            let name = name_of(alloc, tokens, at, bytes)?;
            named(again, alloc, tokens, room, level, name, after)
        }
        Term::TemplateStart => template(again, alloc, tokens, room, after),
        Term::OpenBracket => array(again, alloc, tokens, room, after),
        Term::OpenBrace => dictionary(again, alloc, tokens, room, after),
        Term::Minus => {
            if 9 < level {
                return Err(Stop::Syntax(at));
            }
            minus(again, alloc, tokens, room, after)
        }
        Term::Not => {
            if 4 < level {
                return Err(Stop::Syntax(at));
            }
            negation(again, alloc, tokens, room, after)
        }
        Term::Open => {
            if begins_arrow(tokens, after) {
                long_lambda(again, alloc, tokens, room, level, after)
            } else {
                parenthesized(again, alloc, tokens, room, after)
            }
        }
        _ => Err(Stop::Syntax(at)),
    }
}

/// A name, or the one parameter of a function without parentheses round it.
fn named<R: Readers>(
    again: &R,
    alloc: Global,
    tokens: &Tokens,
    room: u32,
    level: u32,
    name: Named,
    at: usize,
) -> Result<Found<Expr>, Stop>
    requires few { room < 100 }
    requires deep { room ≤ R.levels again.now }
    ensures low { IfOk result (λ f. f.height ≤ room + 1) }
    ensures gives { Gives exp_of tokens.now result (either_way (after_arrow (left tokens.now at)) (short_arrow (readers room) level (word_of name)) (Ok (got (Name (word_of name)) 1 (left tokens.now at)))) }
    ensures places { IfOk result (λ f. exp_names f.tree ++ named_from tokens.now f.at ≡ name ∷ named_from tokens.now at) }
{
    match arrow(tokens, at) {
        Some(body) => short_lambda(again, alloc, tokens, room, level, name, body),
        None => Ok(leaf(Expr::Name(name), at)),
    }
}

/// An expression after a minus; its own level is 9. `at` is the index after the minus.
fn minus<R: Readers>(
    again: &R,
    alloc: Global,
    tokens: &Tokens,
    room: u32,
    at: usize,
) -> Result<Found<Expr>, Stop>
    requires few { room < 100 }
    requires deep { room ≤ R.levels again.now }
    ensures low { IfOk result (λ f. f.height ≤ room + 1) }
    ensures gives { Gives exp_of tokens.now result (followed ((readers room).expression 9 (left tokens.now at)) (grown Neg)) }
    ensures places { IfOk result (λ f. IsPlaced (exp_names f.tree) tokens.now at f.at) }
{
    let e = again.expression(alloc, tokens, room, 9, at)?;
    Ok(Found {
        tree: Expr::Neg(Box::new(alloc, e.tree)?),
        height: e.height + 1,
        at: e.at,
    })
}

/// An expression after `not`; its own level is 4. `at` is the index after the word.
fn negation<R: Readers>(
    again: &R,
    alloc: Global,
    tokens: &Tokens,
    room: u32,
    at: usize,
) -> Result<Found<Expr>, Stop>
    requires few { room < 100 }
    requires deep { room ≤ R.levels again.now }
    ensures low { IfOk result (λ f. f.height ≤ room + 1) }
    ensures gives { Gives exp_of tokens.now result (followed ((readers room).expression 4 (left tokens.now at)) (grown Not)) }
    ensures places { IfOk result (λ f. IsPlaced (exp_names f.tree) tokens.now at f.at) }
{
    let e = again.expression(alloc, tokens, room, 4, at)?;
    Ok(Found {
        tree: Expr::Not(Box::new(alloc, e.tree)?),
        height: e.height + 1,
        at: e.at,
    })
}

/// An expression and the parenthesis that closes it, which counts for the height.
fn parenthesized<R: Readers>(
    again: &R,
    alloc: Global,
    tokens: &Tokens,
    room: u32,
    at: usize,
) -> Result<Found<Expr>, Stop>
    requires few { room < 100 }
    requires deep { room ≤ R.levels again.now }
    ensures low { IfOk result (λ f. f.height ≤ room + 1) }
    ensures gives { Gives exp_of tokens.now result (followed ((readers room).expression 1 (left tokens.now at)) closed) }
    ensures places { IfOk result (λ f. IsPlaced (exp_names f.tree) tokens.now at f.at) }
{
    let e = again.expression(alloc, tokens, room, 1, at)?;
    match close(tokens, e.at) {
        Some(at) => Ok(Found {
            tree: e.tree,
            height: e.height + 1,
            at,
        }),
        None => Err(Stop::Syntax(e.at)),
    }
}

/// An array after its bracket.
#[tactic(auto, using(hog_reading::proofs::Unfold::array_of, hog_reading::proofs::NameRows::array_names))]
fn array<R: Readers>(
    again: &R,
    alloc: Global,
    tokens: &Tokens,
    room: u32,
    at: usize,
) -> Result<Found<Expr>, Stop>
    requires few { room < 100 }
    requires deep { room ≤ R.levels again.now }
    ensures low { IfOk result (λ f. f.height ≤ room + 1) }
    ensures gives { Gives exp_of tokens.now result (followed (listing ((readers room).expression 1) true after_close_bracket (left tokens.now at)) (grown (λ es. Array (exps es)))) }
    ensures places { IfOk result (λ f. IsPlaced (exp_names f.tree) tokens.now at f.at) }
{
    let items = expressions(again, alloc, tokens, room, Closer::Bracket, at)?;
    Ok(Found {
        tree: Expr::Array(items.tree),
        height: items.height + 1,
        at: items.at,
    })
}

/// A dictionary after its brace.
#[tactic(auto, using(hog_reading::proofs::Unfold::dict_of, hog_reading::proofs::NameRows::dictionary_names))]
fn dictionary<R: Readers>(
    again: &R,
    alloc: Global,
    tokens: &Tokens,
    room: u32,
    at: usize,
) -> Result<Found<Expr>, Stop>
    requires few { room < 100 }
    requires deep { room ≤ R.levels again.now }
    ensures low { IfOk result (λ f. f.height ≤ room + 1) }
    ensures gives { Gives exp_of tokens.now result (followed (listing (entry ((readers room).expression 1)) true after_close_brace (left tokens.now at)) (grown (λ ds. Dict (pairs ds)))) }
    ensures places { IfOk result (λ f. IsPlaced (exp_names f.tree) tokens.now at f.at) }
{
    let items = entries(again, alloc, tokens, room, at)?;
    Ok(Found {
        tree: Expr::Dict(items.tree),
        height: items.height + 1,
        at: items.at,
    })
}

/// Goes on from `begun` with operators of this level and tighter.
fn operators<R: Readers>(
    again: &R,
    alloc: Global,
    tokens: &Tokens,
    room: u32,
    level: u32,
    begun: Found<Expr>,
) -> Result<Found<Expr>, Stop>
    requires some { 0 < room }
    requires few { room ≤ 100 }
    requires deep { room ≤ R.levels again.now + 1 }
    requires low { begun.height ≤ room }
    ensures low { IfOk result (λ f. f.height ≤ room) }
    ensures gives { Gives exp_of tokens.now result (climb (readers (room - 1)) room room level (got (exp_of begun.tree) begun.height (left tokens.now begun.at))) }
    ensures places { IfOk result (λ f. exp_names f.tree ++ named_from tokens.now f.at ≡ exp_names begun.tree ++ named_from tokens.now begun.at) }
{
    let mut begun = begun;
    'operators: while lead_level(tokens, begun.at) >= level {
        if begun.height >= room {
            return Err(Stop::TooNested(begun.at));
        }
        begun = operator(again, alloc, tokens, room - 1, begun)?;
    }
    Ok(begun)
}

/// What goes on an expression: an operator and its right operand, or a postfix form.
#[tactic(auto, unfolding(hog_reading::specs::Read::step))]
fn operator<R: Readers>(
    again: &R,
    alloc: Global,
    tokens: &Tokens,
    room: u32,
    before: Found<Expr>,
) -> Result<Found<Expr>, Stop>
    requires few { room < 100 }
    requires deep { room ≤ R.levels again.now }
    requires low { before.height ≤ room }
    ensures low { IfOk result (λ f. f.height ≤ room + 1) }
    ensures taller { IfOk result (λ f. before.height < f.height) }
    ensures gives { Gives exp_of tokens.now result (step (readers room) (exp_of before.tree) before.height (left tokens.now before.at)) }
    ensures places { IfOk result (λ f. exp_names f.tree ++ named_from tokens.now f.at ≡ exp_names before.tree ++ named_from tokens.now before.at) }
{
    let at = before.at;
    if let Some((op, after)) = infix_at(tokens, at) {
        return infix(again, alloc, tokens, room, op, before, after);
    }
    let Some((term, after)) = next(tokens, at) else {
        return Err(Stop::Syntax(at));
    };
    match term {
        Term::Coalesce => coalesce(again, alloc, tokens, room, before, after),
        Term::Dot => member(alloc, tokens, before, after),
        Term::NullishDot => nullish_member(alloc, tokens, before, after),
        Term::OpenBracket => index(again, alloc, tokens, room, before, after),
        Term::Open => call(again, alloc, tokens, room, before, after),
        _ => Err(Stop::Syntax(at)),
    }
}

/// The right operand of `op`, from `at` on.
fn infix<R: Readers>(
    again: &R,
    alloc: Global,
    tokens: &Tokens,
    room: u32,
    op: BinaryOp,
    before: Found<Expr>,
    at: usize,
) -> Result<Found<Expr>, Stop>
    requires few { room < 100 }
    requires deep { room ≤ R.levels again.now }
    requires low { before.height ≤ room }
    ensures low { IfOk result (λ f. f.height ≤ room + 1) }
    ensures taller { IfOk result (λ f. before.height < f.height) }
    ensures gives { Gives exp_of tokens.now result (binary (readers room) (exp_of before.tree) before.height (op, left tokens.now at)) }
    ensures places { IfOk result (λ f. exp_names f.tree ++ named_from tokens.now f.at ≡ exp_names before.tree ++ named_from tokens.now at) }
{
    let right = again.expression(alloc, tokens, room, level_of(op) + 1, at)?;
    let tree = Expr::Binary(
        op,
        Box::new(alloc, before.tree)?,
        Box::new(alloc, right.tree)?,
    );
    Ok(Found {
        tree,
        height: before.height.max(right.height) + 1,
        at: right.at,
    })
}

/// The right operand of `??`, from `at` on.
fn coalesce<R: Readers>(
    again: &R,
    alloc: Global,
    tokens: &Tokens,
    room: u32,
    before: Found<Expr>,
    at: usize,
) -> Result<Found<Expr>, Stop>
    requires few { room < 100 }
    requires deep { room ≤ R.levels again.now }
    requires low { before.height ≤ room }
    ensures low { IfOk result (λ f. f.height ≤ room + 1) }
    ensures taller { IfOk result (λ f. before.height < f.height) }
    ensures gives { Gives exp_of tokens.now result (followed ((readers room).expression 6 (left tokens.now at)) (joined Coalesce (exp_of before.tree) before.height)) }
    ensures places { IfOk result (λ f. exp_names f.tree ++ named_from tokens.now f.at ≡ exp_names before.tree ++ named_from tokens.now at) }
{
    let right = again.expression(alloc, tokens, room, 6, at)?;
    let tree = Expr::Coalesce(Box::new(alloc, before.tree)?, Box::new(alloc, right.tree)?);
    Ok(Found {
        tree,
        height: before.height.max(right.height) + 1,
        at: right.at,
    })
}

/// A property after its dot.
fn member(
    alloc: Global,
    tokens: &Tokens,
    before: Found<Expr>,
    at: usize,
) -> Result<Found<Expr>, Stop>
    requires { before.height < 100 }
    ensures higher { IfOk result (λ f. f.height ≡ before.height + 1) }
    ensures gives { Gives exp_of tokens.now result (wants (after_word (left tokens.now at)) (λ p. Ok (got (Prop (exp_of before.tree) p.0) (suc before.height) p.1))) }
    ensures places { IfOk result (λ f. exp_names f.tree ++ named_from tokens.now f.at ≡ exp_names before.tree ++ names_from true tokens.now at) }
{
    let Some((name, after)) = property(alloc, tokens, at)? else {
        return Err(Stop::Syntax(at));
    };
    Ok(Found {
        tree: Expr::Prop(Box::new(alloc, before.tree)?, name),
        height: before.height + 1,
        at: after,
    })
}

/// A property after its `?.`.
fn nullish_member(
    alloc: Global,
    tokens: &Tokens,
    before: Found<Expr>,
    at: usize,
) -> Result<Found<Expr>, Stop>
    requires { before.height < 100 }
    ensures higher { IfOk result (λ f. f.height ≡ before.height + 1) }
    ensures gives { Gives exp_of tokens.now result (wants (after_word (left tokens.now at)) (λ p. Ok (got (PropNullish (exp_of before.tree) p.0) (suc before.height) p.1))) }
    ensures places { IfOk result (λ f. exp_names f.tree ++ named_from tokens.now f.at ≡ exp_names before.tree ++ names_from true tokens.now at) }
{
    let Some((name, after)) = property(alloc, tokens, at)? else {
        return Err(Stop::Syntax(at));
    };
    Ok(Found {
        tree: Expr::PropNullish(Box::new(alloc, before.tree)?, name),
        height: before.height + 1,
        at: after,
    })
}

/// The index and its closing bracket, from `at` on.
fn index<R: Readers>(
    again: &R,
    alloc: Global,
    tokens: &Tokens,
    room: u32,
    before: Found<Expr>,
    at: usize,
) -> Result<Found<Expr>, Stop>
    requires few { room < 100 }
    requires deep { room ≤ R.levels again.now }
    requires low { before.height ≤ room }
    ensures low { IfOk result (λ f. f.height ≤ room + 1) }
    ensures taller { IfOk result (λ f. before.height < f.height) }
    ensures gives { Gives exp_of tokens.now result (followed ((readers room).expression 1 (left tokens.now at)) (indexed (exp_of before.tree) before.height)) }
    ensures places { IfOk result (λ f. exp_names f.tree ++ named_from tokens.now f.at ≡ exp_names before.tree ++ named_from tokens.now at) }
{
    let inner = again.expression(alloc, tokens, room, 1, at)?;
    let Some(at) = close_bracket(tokens, inner.at) else {
        return Err(Stop::Syntax(inner.at));
    };
    let tree = Expr::Index(Box::new(alloc, before.tree)?, Box::new(alloc, inner.tree)?);
    Ok(Found {
        tree,
        height: before.height.max(inner.height) + 1,
        at,
    })
}

/// The arguments of a call after their parenthesis.
#[tactic(auto, using(hog_reading::proofs::Unfold::call_of))]
fn call<R: Readers>(
    again: &R,
    alloc: Global,
    tokens: &Tokens,
    room: u32,
    before: Found<Expr>,
    at: usize,
) -> Result<Found<Expr>, Stop>
    requires few { room < 100 }
    requires deep { room ≤ R.levels again.now }
    requires low { before.height ≤ room }
    ensures low { IfOk result (λ f. f.height ≤ room + 1) }
    ensures taller { IfOk result (λ f. before.height < f.height) }
    ensures gives { Gives exp_of tokens.now result (followed (listing ((readers room).expression 1) false after_close (left tokens.now at)) (called (exp_of before.tree) before.height)) }
    ensures places { IfOk result (λ f. exp_names f.tree ++ named_from tokens.now f.at ≡ exp_names before.tree ++ named_from tokens.now at) }
{
    let arguments = expressions(again, alloc, tokens, room, Closer::Parenthesis, at)?;
    Ok(Found {
        tree: Expr::Call(Box::new(alloc, before.tree)?, arguments.tree),
        height: before.height.max(arguments.height) + 1,
        at: arguments.at,
    })
}

/// Expressions with commas between them, and the mark that closes them. Of arguments no comma stands last.
fn expressions<R: Readers>(
    again: &R,
    alloc: Global,
    tokens: &Tokens,
    room: u32,
    closer: Closer,
    at: usize,
) -> Result<Found<Exprs>, Stop>
    requires few { room < 100 }
    requires deep { room ≤ R.levels again.now }
    ensures low { IfOk result (λ f. f.height ≤ room) }
    ensures gives { Gives list_of tokens.now result (listing ((readers room).expression 1) (comma_of closer) (shut_of closer) (left tokens.now at)) }
    ensures places { IfOk result (λ f. IsPlaced (list_names f.tree) tokens.now at f.at) }
{
    let mut list = Vec::new(alloc);
    if let Some(at) = closing(tokens, closer, at) {
        return Ok(Found {
            tree: Exprs { list },
            height: 0,
            at,
        });
    }
    let mut height = 0;
    let mut begin = at;
    'items: for _ in 0..remaining(tokens, at) {
        let item = again.expression(alloc, tokens, room, 1, begin)?;
        list.push(item.tree)?;
        height = height.max(item.height);
        match following(tokens, closer, item.at) {
            Follow::More(at) => begin = at,
            Follow::End(at) => {
                return Ok(Found {
                    tree: Exprs { list },
                    height,
                    at,
                });
            }
            Follow::Neither => return Err(Stop::Syntax(item.at)),
        }
    }
    Err(Stop::Syntax(begin))
}

/// A key and its value.
fn item<R: Readers>(
    again: &R,
    alloc: Global,
    tokens: &Tokens,
    room: u32,
    at: usize,
) -> Result<Found<DictItem>, Stop>
    requires few { room < 100 }
    requires deep { room ≤ R.levels again.now }
    ensures low { IfOk result (λ f. f.height ≤ room) }
    ensures gives { Gives entry_of tokens.now result (entry ((readers room).expression 1) (left tokens.now at)) }
    ensures places { IfOk result (λ f. IsPlaced (entry_names f.tree) tokens.now at f.at) }
{
    let key = again.expression(alloc, tokens, room, 1, at)?;
    let Some(after) = colon(tokens, key.at) else {
        return Err(Stop::Syntax(key.at));
    };
    let value = again.expression(alloc, tokens, room, 1, after)?;
    Ok(Found {
        tree: DictItem {
            key: key.tree,
            value: value.tree,
        },
        height: key.height.max(value.height),
        at: value.at,
    })
}

/// Keys with values, and the brace that closes them.
fn entries<R: Readers>(
    again: &R,
    alloc: Global,
    tokens: &Tokens,
    room: u32,
    at: usize,
) -> Result<Found<DictItems>, Stop>
    requires few { room < 100 }
    requires deep { room ≤ R.levels again.now }
    ensures low { IfOk result (λ f. f.height ≤ room) }
    ensures gives { Gives entries_of tokens.now result (listing (entry ((readers room).expression 1)) true after_close_brace (left tokens.now at)) }
    ensures places { IfOk result (λ f. IsPlaced (entries_names f.tree) tokens.now at f.at) }
{
    let mut list = Vec::new(alloc);
    if let Some(at) = closing(tokens, Closer::Brace, at) {
        return Ok(Found {
            tree: DictItems { list },
            height: 0,
            at,
        });
    }
    let mut height = 0;
    let mut begin = at;
    'items: for _ in 0..remaining(tokens, at) {
        let found = item(again, alloc, tokens, room, begin)?;
        list.push(found.tree)?;
        height = height.max(found.height);
        match following(tokens, Closer::Brace, found.at) {
            Follow::More(at) => begin = at,
            Follow::End(at) => {
                return Ok(Found {
                    tree: DictItems { list },
                    height,
                    at,
                });
            }
            Follow::Neither => return Err(Stop::Syntax(found.at)),
        }
    }
    Err(Stop::Syntax(begin))
}

/// The parts of a template after its beginning.
#[tactic(auto, using(hog_tree::proofs::Rows::template_is))]
fn template<R: Readers>(
    again: &R,
    alloc: Global,
    tokens: &Tokens,
    room: u32,
    at: usize,
) -> Result<Found<Expr>, Stop>
    requires few { room < 100 }
    requires deep { room ≤ R.levels again.now }
    ensures low { IfOk result (λ f. f.height ≤ room + 1) }
    ensures gives { Gives exp_of tokens.now result (followed (parts ((readers room).expression 1) (length (left tokens.now at)) (left tokens.now at)) (grown Template)) }
    ensures places { IfOk result (λ f. IsPlaced (exp_names f.tree) tokens.now at f.at) }
{
    let mut list = Vec::new(alloc);
    let mut height = 0;
    let mut begin = at;
    'parts: for _ in 0..remaining(tokens, at) {
        match part_at(tokens, begin) {
            PartMark::Characters(bytes, after) => {
                list.push(Part::Text(characters(alloc, bytes)?))?;
                begin = after;
            }
            PartMark::Hole(after) => {
                let part = in_hole(again, alloc, tokens, room, after)?;
                list.push(Part::Hole(part.tree))?;
                height = height.max(part.height);
                begin = part.at;
            }
            PartMark::End(after) => {
                return Ok(Found {
                    tree: Expr::Template(Parts { list }),
                    height: height + 1,
                    at: after,
                });
            }
            PartMark::Neither => return Err(Stop::Syntax(begin)),
        }
    }
    Err(Stop::Syntax(begin))
}

/// The expression of a template's hole, and the hole's end.
fn in_hole<R: Readers>(
    again: &R,
    alloc: Global,
    tokens: &Tokens,
    room: u32,
    at: usize,
) -> Result<Found<Expr>, Stop>
    requires few { room < 100 }
    requires deep { room ≤ R.levels again.now }
    ensures low { IfOk result (λ f. f.height ≤ room) }
    ensures gives { Gives exp_of tokens.now result (followed ((readers room).expression 1 (left tokens.now at)) holed) }
    ensures places { IfOk result (λ f. IsPlaced (exp_names f.tree) tokens.now at f.at) }
{
    let e = again.expression(alloc, tokens, room, 1, at)?;
    match hole(tokens, e.at) {
        Some(at) => Ok(Found {
            tree: e.tree,
            height: e.height,
            at,
        }),
        None => Err(Stop::Syntax(e.at)),
    }
}

/// What stands after an arrow.
#[tactic(auto, using(hog_tree::proofs::Rows::body_is, hog_reading::proofs::NameRows::block_body_names), unfolding(hog_reading::specs::Read::body))]
fn arrow_body<R: Readers>(
    again: &R,
    alloc: Global,
    tokens: &Tokens,
    room: u32,
    at: usize,
) -> Result<Found<ArrowBody>, Stop>
    requires few { room < 100 }
    requires deep { room ≤ R.levels again.now }
    ensures low { IfOk result (λ f. f.height ≤ room) }
    ensures gives { Gives body_of tokens.now result (body (readers room) (left tokens.now at)) }
    ensures places { IfOk result (λ f. IsPlaced (body_names f.tree) tokens.now at f.at) }
{
    if let Some(after) = open_brace(tokens, at) {
        let block = braced(again, alloc, tokens, room, after)?;
        if lead_level(tokens, block.at) >= 1 {
            return Err(Stop::Syntax(block.at));
        }
        return Ok(Found {
            tree: ArrowBody::Block(block.tree),
            height: block.height,
            at: block.at,
        });
    }
    let e = again.expression(alloc, tokens, room, 1, at)?;
    Ok(Found {
        tree: ArrowBody::One(Box::new(alloc, e.tree)?),
        height: e.height,
        at: e.at,
    })
}

/// A function without a name: its parameters are read, and its body begins at `at`.
fn lambda<R: Readers>(
    again: &R,
    alloc: Global,
    tokens: &Tokens,
    room: u32,
    parameters: Found<Names>,
    at: usize,
) -> Result<Found<Expr>, Stop>
    requires few { room < 100 }
    requires deep { room ≤ R.levels again.now }
    requires low { parameters.height ≤ room }
    ensures low { IfOk result (λ f. f.height ≤ room + 1) }
    ensures gives { Gives exp_of tokens.now result (followed (body (readers room) (left tokens.now at)) (arrowed (got (words_of parameters.tree) parameters.height (left tokens.now parameters.at)))) }
    ensures places { IfOk result (λ f. exp_names f.tree ++ named_from tokens.now f.at ≡ parameters.tree ++ named_from tokens.now at) }
{
    let Found {
        tree: names,
        height,
        at: _,
    } = parameters;
    let body = arrow_body(again, alloc, tokens, room, at)?;
    Ok(Found {
        tree: Expr::Lambda(names, body.tree),
        height: height.max(body.height) + 1,
        at: body.at,
    })
}

/// A function with one parameter without parentheses; `at` is the index after its arrow.
#[tactic(auto, unfolding(hog_reading::specs::Read::short_arrow))]
fn short_lambda<R: Readers>(
    again: &R,
    alloc: Global,
    tokens: &Tokens,
    room: u32,
    level: u32,
    name: Named,
    at: usize,
) -> Result<Found<Expr>, Stop>
    requires few { room < 100 }
    requires deep { room ≤ R.levels again.now }
    ensures low { IfOk result (λ f. f.height ≤ room + 1) }
    ensures gives { Gives exp_of tokens.now result (short_arrow (readers room) level (word_of name) (left tokens.now at)) }
    ensures places { IfOk result (λ f. exp_names f.tree ++ named_from tokens.now f.at ≡ name ∷ named_from tokens.now at) }
{
    if 1 < level {
        return Err(Stop::Syntax(at.saturating_sub(1)));
    }
    let mut list = Vec::new(alloc);
    list.push(name)?;
    let parameters = Found {
        tree: Names::new(list),
        height: 0,
        at,
    };
    lambda(again, alloc, tokens, room, parameters, at)
}

/// A function with its parameters in parentheses, after the first of them.
#[tactic(auto, unfolding(hog_reading::specs::Read::arrow))]
fn long_lambda<R: Readers>(
    again: &R,
    alloc: Global,
    tokens: &Tokens,
    room: u32,
    level: u32,
    at: usize,
) -> Result<Found<Expr>, Stop>
    requires few { room < 100 }
    requires deep { room ≤ R.levels again.now }
    ensures low { IfOk result (λ f. f.height ≤ room + 1) }
    ensures gives { Gives exp_of tokens.now result (arrow (readers room) level (left tokens.now at)) }
    ensures places { IfOk result (λ f. IsPlaced (exp_names f.tree) tokens.now at f.at) }
{
    if 1 < level {
        return Err(Stop::Syntax(arrow_fault(tokens, at)));
    }
    let parameters = names(alloc, tokens, at)?;
    let end = parameters.at;
    match arrow(tokens, end) {
        Some(at) => lambda(again, alloc, tokens, room, parameters, at),
        None => Err(Stop::Syntax(end)),
    }
}
