//! The natives on dates.

ghost use Rattle.std.specs.Prelude.{◌≡◌, ◌+ℤ◌, pos, length, All, IfOk, option_map, option_and_then};
ghost use Rattle.hog_value.specs.Values.{NamesBelow};
ghost use Rattle.hog_extras.specs.Dates.{date_day, day_text, day_of_week};
ghost use Rattle.hog_library.specs.Products.{Finds};
ghost use Rattle.hog_library.specs.Natives.{number_or_null, days_between, date_add_called, date_diff_called, weekday_called};

use crate::given::{argument, wanted_text};
use crate::product::Product;
use crate::stop::NativeStop;
use hog_extras::{date_text, reads_date, weekday};
use hog_value::{Cell, Heap, HogText, Kind, Meter, Value};
use std::alloc::{AllocError, Global};

/// A whole number as a value, or null.
pub(crate) fn number_or_null(n: Option<i64>) -> Value
    ensures { result ≡ number_or_null n }
{
    match n {
        Some(z) => Value::Int(z),
        None => Value::Null,
    }
}

/// The date text of the day so many days after a day. None where it lies outside the years 0000 to 9999.
fn day_later(alloc: Global, day: i32, days: i64) -> Result<Option<HogText>, AllocError>
    ensures { IfOk result (λ text. text ≡ day_text (day +ℤ days)) }
{
    match i32::try_from(i128::from(day) + i128::from(days)) {
        Ok(sum) => date_text(alloc, sum),
        Err(_) => Ok(None),
    }
}

/// The date so many days after a date. None where the text is no date, or where that lies outside the years 0000 to 9999.
fn later(alloc: Global, date: &HogText, days: i64) -> Result<Option<HogText>, AllocError>
    ensures { IfOk result (λ text. text ≡ option_and_then (λ day. day_text (day +ℤ days)) (date_day date.now)) }
{
    match reads_date(date) {
        Some(day) => day_later(alloc, day, days),
        None => Ok(None),
    }
}

/// dateAdd(date, days)
#[tactic(auto, unfolding(crate::specs::Natives::date_add_called))]
pub(crate) fn date_add(
    alloc: Global,
    args: &[Value],
    heap: &Heap,
    m: &Meter,
) -> Result<Product, NativeStop>
    requires { All (NamesBelow (length heap.now)) args.now }
    ensures { Finds (date_add_called args.now heap.now m.now.units) result heap.now m.now.units }
{
    let date = wanted_text(heap, args, 0)?;
    let Value::Int(days) = argument(args, 1) else {
        return Err(NativeStop::Thrown(Kind::TypeError));
    };
    match later(alloc, date, days)? {
        Some(text) => Ok(Product::Cell(Cell::Text(text))),
        None => Ok(Product::Value(Value::Null)),
    }
}

/// How many days the second date is after the first.
fn days_between(from: &HogText, to: &HogText) -> Option<i64>
    ensures { result ≡ days_between from.now to.now }
{
    let first = reads_date(from)?;
    let second = reads_date(to)?;
    Some(i64::from(second) - i64::from(first))
}

/// dateDiff(from, to)
#[tactic(auto, unfolding(crate::specs::Natives::date_diff_called))]
pub(crate) fn date_diff(args: &[Value], heap: &Heap, m: &Meter) -> Result<Product, NativeStop>
    requires { All (NamesBelow (length heap.now)) args.now }
    ensures { Finds (date_diff_called args.now heap.now m.now.units) result heap.now m.now.units }
{
    let from = wanted_text(heap, args, 0)?;
    let to = wanted_text(heap, args, 1)?;
    Ok(Product::Value(number_or_null(days_between(from, to))))
}

/// The day of the week of a date.
fn day_of_week(date: &HogText) -> Option<i64>
    ensures { result ≡ option_map (λ n. pos n) (option_and_then day_of_week (date_day date.now)) }
{
    let day = weekday(reads_date(date)?)?;
    Some(i64::from(day))
}

/// weekday(date)
#[tactic(auto, unfolding(crate::specs::Natives::weekday_called))]
pub(crate) fn week_day(args: &[Value], heap: &Heap, m: &Meter) -> Result<Product, NativeStop>
    requires { All (NamesBelow (length heap.now)) args.now }
    ensures { Finds (weekday_called args.now heap.now m.now.units) result heap.now m.now.units }
{
    let date = wanted_text(heap, args, 0)?;
    Ok(Product::Value(number_or_null(day_of_week(date))))
}
