//! Arithmetic of two values.

ghost use Rattle.std.specs.Prelude.{◌≡◌, ◌+ℤ◌, ◌-ℤ◌, ◌*ℤ◌};
ghost use Rattle.hog_meaning.specs.Operators.{computed};
ghost use Rattle.hog_operators.specs.Numbers.{number_given};

use hog_value::{Kind, Value};

/// A number that was computed, where it is in range.
fn checked(n: Option<i64>) -> Result<Value, Kind>
    ensures { result ≡ number_given n }
{
    match n {
        Some(z) => Ok(Value::Int(z)),
        None => Err(Kind::IntegerOverflow),
    }
}

/// The sum of two numbers.
pub(crate) fn sum(x: Value, y: Value) -> Result<Value, Kind>
    ensures { result ≡ computed (λ a b. a +ℤ b) x y }
{
    match (x, y) {
        (Value::Int(a), Value::Int(b)) => checked(a.checked_add(b)),
        _ => Err(Kind::TypeError),
    }
}

/// The difference of two numbers.
pub(crate) fn difference(x: Value, y: Value) -> Result<Value, Kind>
    ensures { result ≡ computed (λ a b. a -ℤ b) x y }
{
    match (x, y) {
        (Value::Int(a), Value::Int(b)) => checked(a.checked_sub(b)),
        _ => Err(Kind::TypeError),
    }
}

/// The product of two numbers.
pub(crate) fn product(x: Value, y: Value) -> Result<Value, Kind>
    ensures { result ≡ computed (λ a b. a *ℤ b) x y }
{
    match (x, y) {
        (Value::Int(a), Value::Int(b)) => checked(a.checked_mul(b)),
        _ => Err(Kind::TypeError),
    }
}
