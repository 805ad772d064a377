//! What stands at an index: marks, operators, and what they go on with.

ghost use Rattle.std.specs.Prelude.{◌≡◌, ◌<◌, ◌^◌, [], ◌∷◌, length, option_map, IfSome};
ghost use Rattle.hog_tree.specs.Plain.{Word};
ghost use Rattle.hog_grammar.specs.Terminal as k;
ghost use Rattle.hog_grammar.specs.Forms.{goes_on, ends_block};
ghost use Rattle.hog_grammar.specs.Spelling.{level_of};
ghost use Rattle.hog_terms.specs.Marks.{after_open, after_close, after_close_bracket, after_open_brace, after_close_brace, after_comma, after_semi, after_colon, after_assign, after_arrow, after_hole, after_else, after_let, after_in, operator, lead, begins_arrow};
ghost use Rattle.hog_terms.specs.View.{left, IsPlaced};

use crate::cursor::next;
use crate::term::Term;
use hog_grammar::Tokens;
use hog_tree::tree::BinaryOp;

/// The index after an opening parenthesis. Takes no memory.
pub fn open(tokens: &Tokens, at: usize) -> Option<usize>
    ensures value { option_map (λ i. left tokens.now i) result ≡ after_open (left tokens.now at) }
    ensures names { IfSome result (λ i. IsPlaced [] tokens.now at i) }
{
    let (term, after) = next(tokens, at)?;
    match term {
        Term::Open => Some(after),
        _ => None,
    }
}

/// The index after a closing parenthesis. Takes no memory.
pub fn close(tokens: &Tokens, at: usize) -> Option<usize>
    ensures value { option_map (λ i. left tokens.now i) result ≡ after_close (left tokens.now at) }
    ensures names { IfSome result (λ i. IsPlaced [] tokens.now at i) }
{
    let (term, after) = next(tokens, at)?;
    match term {
        Term::Close => Some(after),
        _ => None,
    }
}

/// The index after a closing bracket. Takes no memory.
pub fn close_bracket(tokens: &Tokens, at: usize) -> Option<usize>
    ensures value { option_map (λ i. left tokens.now i) result ≡ after_close_bracket (left tokens.now at) }
    ensures names { IfSome result (λ i. IsPlaced [] tokens.now at i) }
{
    let (term, after) = next(tokens, at)?;
    match term {
        Term::CloseBracket => Some(after),
        _ => None,
    }
}

/// The index after an opening brace. Takes no memory.
pub fn open_brace(tokens: &Tokens, at: usize) -> Option<usize>
    ensures value { option_map (λ i. left tokens.now i) result ≡ after_open_brace (left tokens.now at) }
    ensures names { IfSome result (λ i. IsPlaced [] tokens.now at i) }
{
    let (term, after) = next(tokens, at)?;
    match term {
        Term::OpenBrace => Some(after),
        _ => None,
    }
}

/// The index after a closing brace. Takes no memory.
pub fn close_brace(tokens: &Tokens, at: usize) -> Option<usize>
    ensures value { option_map (λ i. left tokens.now i) result ≡ after_close_brace (left tokens.now at) }
    ensures names { IfSome result (λ i. IsPlaced [] tokens.now at i) }
{
    let (term, after) = next(tokens, at)?;
    match term {
        Term::CloseBrace => Some(after),
        _ => None,
    }
}

/// The index after a comma. Takes no memory.
pub fn comma(tokens: &Tokens, at: usize) -> Option<usize>
    ensures value { option_map (λ i. left tokens.now i) result ≡ after_comma (left tokens.now at) }
    ensures names { IfSome result (λ i. IsPlaced [] tokens.now at i) }
{
    let (term, after) = next(tokens, at)?;
    match term {
        Term::Comma => Some(after),
        _ => None,
    }
}

/// The index after a `;`. Takes no memory.
pub fn semi(tokens: &Tokens, at: usize) -> Option<usize>
    ensures value { option_map (λ i. left tokens.now i) result ≡ after_semi (left tokens.now at) }
    ensures names { IfSome result (λ i. IsPlaced [] tokens.now at i) }
{
    let (term, after) = next(tokens, at)?;
    match term {
        Term::Semi => Some(after),
        _ => None,
    }
}

/// The index after a colon. Takes no memory.
pub fn colon(tokens: &Tokens, at: usize) -> Option<usize>
    ensures value { option_map (λ i. left tokens.now i) result ≡ after_colon (left tokens.now at) }
    ensures names { IfSome result (λ i. IsPlaced [] tokens.now at i) }
{
    let (term, after) = next(tokens, at)?;
    match term {
        Term::Colon => Some(after),
        _ => None,
    }
}

/// The index after a `:=`. Takes no memory.
pub fn assign(tokens: &Tokens, at: usize) -> Option<usize>
    ensures value { option_map (λ i. left tokens.now i) result ≡ after_assign (left tokens.now at) }
    ensures names { IfSome result (λ i. IsPlaced [] tokens.now at i) }
{
    let (term, after) = next(tokens, at)?;
    match term {
        Term::Assign => Some(after),
        _ => None,
    }
}

/// The index after an arrow. Takes no memory.
pub fn arrow(tokens: &Tokens, at: usize) -> Option<usize>
    ensures value { option_map (λ i. left tokens.now i) result ≡ after_arrow (left tokens.now at) }
    ensures names { IfSome result (λ i. IsPlaced [] tokens.now at i) }
{
    let (term, after) = next(tokens, at)?;
    match term {
        Term::Arrow => Some(after),
        _ => None,
    }
}

/// The index after the end of a hole. Takes no memory.
pub fn hole(tokens: &Tokens, at: usize) -> Option<usize>
    ensures value { option_map (λ i. left tokens.now i) result ≡ after_hole (left tokens.now at) }
    ensures names { IfSome result (λ i. IsPlaced [] tokens.now at i) }
{
    let (term, after) = next(tokens, at)?;
    match term {
        Term::HoleEnd => Some(after),
        _ => None,
    }
}

/// The index after `else`. Takes no memory.
pub fn else_word(tokens: &Tokens, at: usize) -> Option<usize>
    ensures value { option_map (λ i. left tokens.now i) result ≡ after_else (left tokens.now at) }
    ensures names { IfSome result (λ i. IsPlaced [] tokens.now at i) }
{
    let (term, after) = next(tokens, at)?;
    match term {
        Term::Else => Some(after),
        _ => None,
    }
}

/// The operator between two operands, and the index after it. Takes no memory.
pub fn infix_at(tokens: &Tokens, at: usize) -> Option<(BinaryOp, usize)>
    ensures value { option_map (λ x. (x.0, left tokens.now x.1)) result ≡ operator (left tokens.now at) }
    ensures names { IfSome result (λ x. IsPlaced [] tokens.now at x.1) }
{
    let (term, after) = next(tokens, at)?;
    match term {
        Term::Or => Some((BinaryOp::Or, after)),
        Term::And => Some((BinaryOp::And, after)),
        Term::Equal => Some((BinaryOp::Equal, after)),
        Term::NotEqual => Some((BinaryOp::NotEqual, after)),
        Term::Less => Some((BinaryOp::Less, after)),
        Term::LessEqual => Some((BinaryOp::LessEqual, after)),
        Term::Greater => Some((BinaryOp::Greater, after)),
        Term::GreaterEqual => Some((BinaryOp::GreaterEqual, after)),
        Term::In => Some((BinaryOp::IsIn, after)),
        Term::Not => match next(tokens, after) {
            Some((Term::In, after)) => Some((BinaryOp::NotIn, after)),
            _ => None,
        },
        Term::Plus => Some((BinaryOp::Plus, after)),
        Term::Minus => Some((BinaryOp::Minus, after)),
        Term::Star => Some((BinaryOp::Times, after)),
        _ => None,
    }
}

/// The level at which the tokens go on an expression before them; 0 where they don't. Takes no memory.
pub fn lead_level(tokens: &Tokens, at: usize) -> u32
    ensures { result ≡ lead (left tokens.now at) }
{
    let Some((term, after)) = next(tokens, at) else {
        return 0;
    };
    match term {
        Term::Or => 2,
        Term::And => 3,
        Term::Coalesce => 5,
        Term::Equal | Term::NotEqual | Term::Less | Term::LessEqual => 6,
        Term::Greater | Term::GreaterEqual | Term::In => 6,
        Term::Not => match next(tokens, after) {
            Some((Term::In, _)) => 6,
            _ => 0,
        },
        Term::Plus | Term::Minus => 7,
        Term::Star => 8,
        Term::Dot | Term::NullishDot | Term::OpenBracket | Term::Open => 10,
        Term::Arrow => 12,
        _ => 0,
    }
}

/// The level of an operator. Takes no memory.
pub fn level_of(op: BinaryOp) -> u32
    ensures { result ≡ level_of op }
{
    match op {
        BinaryOp::Or => 2,
        BinaryOp::And => 3,
        BinaryOp::Equal | BinaryOp::NotEqual => 6,
        BinaryOp::Less | BinaryOp::LessEqual => 6,
        BinaryOp::Greater | BinaryOp::GreaterEqual => 6,
        BinaryOp::IsIn | BinaryOp::NotIn => 6,
        BinaryOp::Plus | BinaryOp::Minus => 7,
        BinaryOp::Times => 8,
    }
}

/// The index after `in`. Takes no memory.
pub fn in_word(tokens: &Tokens, at: usize) -> Option<usize>
    ensures value { option_map (λ i. left tokens.now i) result ≡ after_in (left tokens.now at) }
    ensures names { IfSome result (λ i. IsPlaced [] tokens.now at i) }
{
    let (term, after) = next(tokens, at)?;
    match term {
        Term::In => Some(after),
        _ => None,
    }
}

/// The index after `let`. Takes no memory.
pub fn let_word(tokens: &Tokens, at: usize) -> Option<usize>
    ensures value { option_map (λ i. left tokens.now i) result ≡ after_let (left tokens.now at) }
    ensures names { IfSome result (λ i. IsPlaced [] tokens.now at i) }
{
    let (term, after) = next(tokens, at)?;
    match term {
        Term::Let => Some(after),
        _ => None,
    }
}

/// Whether a parenthesis before these tokens is that of an arrow's parameters. Takes no memory.
pub fn begins_arrow(tokens: &Tokens, at: usize) -> bool
    ensures { result ≡ begins_arrow (left tokens.now at) }
{
    let Some((term, after)) = next(tokens, at) else {
        return false;
    };
    match term {
        Term::Close => true,
        Term::Word(_) => goes_on_parameters(tokens, after),
        _ => false,
    }
}

/// Whether a name before these tokens is the first of an arrow's parameters. Takes no memory.
fn goes_on_parameters(tokens: &Tokens, at: usize) -> bool
    ensures { (w : Word) → result ≡ begins_arrow (k.Word w ∷ left tokens.now at) }
{
    let Some((term, after)) = next(tokens, at) else {
        return false;
    };
    match term {
        Term::Comma => true,
        Term::Close => arrow(tokens, after).is_some(),
        _ => false,
    }
}

/// The index of the first token after an opening parenthesis that no expression in parentheses goes on with,
/// where an arrow's parameters stand there. Takes no memory.
pub fn arrow_fault(tokens: &Tokens, at: usize) -> usize {
    let Some((Term::Word(_), after)) = next(tokens, at) else {
        return at;
    };
    match next(tokens, after) {
        Some((Term::Close, end)) => end,
        _ => after,
    }
}

/// Whether a statement before these tokens needs its own `;`. Takes no memory.
pub fn goes_on(tokens: &Tokens, at: usize) -> bool
    ensures { result ≡ goes_on (left tokens.now at) }
{
    let Some((term, _)) = next(tokens, at) else {
        return false;
    };
    match term {
        Term::Open | Term::OpenBracket | Term::Dot | Term::NullishDot => true,
        Term::Plus | Term::Minus | Term::Star | Term::Coalesce => true,
        Term::Equal | Term::NotEqual | Term::Less | Term::LessEqual => true,
        Term::Greater | Term::GreaterEqual | Term::In | Term::Not => true,
        Term::And | Term::Or | Term::Assign | Term::Arrow | Term::Semi => true,
        _ => false,
    }
}

/// Whether a block or the text ends here. Takes no memory.
pub fn ends_block(tokens: &Tokens, at: usize) -> bool
    ensures { result ≡ ends_block (left tokens.now at) }
{
    let Some((term, _)) = next(tokens, at) else {
        return true;
    };
    match term {
        Term::CloseBrace => true,
        _ => false,
    }
}

/// How many tokens there are from the index on. Takes no memory.
#[tactic(auto, using(crate::proofs::Place::left_length))]
pub fn remaining(tokens: &Tokens, at: usize) -> usize
    ensures value { result ≡ length (left tokens.now at) }
    ensures few { result < 2 ^ 63 }
{
    tokens.list().len().saturating_sub(at)
}
