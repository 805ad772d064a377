//! Which expressions have parentheses, and where.

ghost use Rattle.std.specs.Prelude.{◌≡◌};
ghost use Rattle.hog_tree.specs.View.{exp_of};
ghost use Rattle.hog_printer.specs.Print.{form_of, is_compound, is_held_base, is_held_body, is_dict};

use hog_tree::tree::Expr;

/// The form of an expression, as far as parentheses ask for it.
#[derive(Clone, Copy, Debug, PartialEq, Eq)]
pub enum Form {
    Number,
    /// An operator with its operands.
    Operation,
    Arrow,
    Dictionary,
    /// Any other.
    Plain,
}

pub fn form_of(e: &Expr) -> Form
    ensures { result ≡ form_of (exp_of e.now) }
{
    match e {
        Expr::Int(_) => Form::Number,
        Expr::Binary(_, _, _) | Expr::Coalesce(_, _) | Expr::Neg(_) | Expr::Not(_) => {
            Form::Operation
        }
        Expr::Lambda(_, _) => Form::Arrow,
        Expr::Dict(_) => Form::Dictionary,
        Expr::Bool(_)
        | Expr::Null
        | Expr::Text(_)
        | Expr::Template(_)
        | Expr::Name(_)
        | Expr::Array(_)
        | Expr::Prop(_, _)
        | Expr::PropNullish(_, _)
        | Expr::Index(_, _)
        | Expr::Call(_, _) => Form::Plain,
    }
}

/// Whether it has parentheses as an operand or as what is called.
pub fn is_compound(form: Form) -> bool
    ensures { result ≡ is_compound form }
{
    match form {
        Form::Operation | Form::Arrow | Form::Dictionary => true,
        Form::Number | Form::Plain => false,
    }
}

/// Whether it has them as the base of a property or an index.
pub fn is_held_base(form: Form) -> bool
    ensures { result ≡ is_held_base form }
{
    match form {
        Form::Number => true,
        _ => is_compound(form),
    }
}

/// Whether it has them as the body of an arrow.
pub fn is_held_body(form: Form) -> bool
    ensures { result ≡ is_held_body form }
{
    matches!(form, Form::Arrow | Form::Dictionary)
}

/// Whether it has them as a statement.
pub fn is_dict(form: Form) -> bool
    ensures { result ≡ is_dict form }
{
    matches!(form, Form::Dictionary)
}
