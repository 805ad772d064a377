//! Dates `dddd-dd-dd` of the years 0000 to 9999.

ghost use Rattle.std.specs.Prelude.{◌≡◌, ◌<◌, ◌↔◌, pos, ◌+◌, ◌/◌, ◌%◌, ◌≤ℤ◌, false, IsNone, IfOk, IfSome, Some, All, option_map};
ghost use Rattle.jiff_core.specs.Date.{epoch_day};
ghost use Rattle.hog_extras.specs.Dates.{is_day, two_digits, text_of_date, civil_day, date_parts, date_day, day_text, day_of_week};

use hog_value::{HogText, TextStop};
use jiff_core::civil::Date;
use std::alloc::{AllocError, Global};

/// The day of a date text: how many days it lies after 1970-01-01, negative before it.
/// None where the text is no date. Takes no memory.
#[tactic(auto, unfolding(crate::specs::Dates::date_day))]
pub fn reads_date(text: &HogText) -> Option<i32>
    ensures value { result ≡ date_day text.now }
{
    let (year, month, day) = parts(text.bytes())?;
    civil_day_of(year, month, day)
}

/// The year, the month and the day that a text spells.
#[tactic(auto, unfolding(crate::specs::Dates::date_parts))]
fn parts(text: &[u8]) -> Option<(u16, u8, u8)>
    ensures value { option_map (λ p. (p.0, p.1, p.2)) result ≡ date_parts text.now }
    ensures bound { IfSome result (λ p. (p.0 < 10000) × (p.1 < 100) × (p.2 < 100)) }
{
    if text.len() != 10 || text[4] != b'-' || text[7] != b'-' {
        return None;
    }
    let century = number(text[0], text[1])?;
    let year = number(text[2], text[3])?;
    let month = number(text[5], text[6])?;
    let day = number(text[8], text[9])?;
    Some((100 * u16::from(century) + u16::from(year), month, day))
}

/// The day of a date, where the calendar has it.
fn civil_day_of(year: u16, month: u8, day: u8) -> Option<i32>
    requires year { year < 10000 }
    requires month { month < 100 }
    requires day { day < 100 }
    ensures { result ≡ civil_day year month day }
{
    match Date::new(year as i16, month as i8, day as i8) {
        Ok(date) => Some(date.to_unix_epoch_day()),
        Err(_) => None,
    }
}

/// The number that two decimal digits spell.
fn number(tens: u8, ones: u8) -> Option<u8>
    ensures value { result ≡ two_digits tens ones }
    ensures bound { IfSome result (λ n. n < 100) }
{
    if tens.is_ascii_digit() && ones.is_ascii_digit() {
        Some(10 * (tens - b'0') + (ones - b'0'))
    } else {
        None
    }
}

/// The date of a day, where it lies in the years 0000 to 9999.
fn date_of(day: i32) -> Option<Date>
    ensures none { IsNone result ↔ (is_day day ≡ false) }
    ensures day { IfSome result (λ d. epoch_day d ≡ day) }
    ensures year { IfSome result (λ d. pos 0 ≤ℤ d.year) }
{
    match Date::from_unix_epoch_day(i64::from(day)) {
        Ok(date) if date.year >= 0 => Some(date),
        _ => None,
    }
}

/// The two digits of a number below 100.
fn digits(n: u8) -> (u8, u8)
    requires { n < 100 }
    ensures tens { result.0 ≡ 48 + n / 10 }
    ensures ones { result.1 ≡ 48 + n % 10 }
    ensures ascii { (result.0 < 128) × (result.1 < 128) }
{
    (b'0' + n / 10, b'0' + n % 10)
}

/// The bytes of a date's text.
fn text_bytes(year: u16, month: u8, day: u8) -> [u8; 10]
    requires year { year < 10000 }
    requires month { month < 100 }
    requires day { day < 100 }
    ensures text { result ≡ text_of_date year month day }
    ensures ascii { All (λ byte. byte < 128) result }
{
    let (a, b) = digits((year / 100) as u8);
    let (c, d) = digits((year % 100) as u8);
    let (e, f) = digits(month);
    let (g, h) = digits(day);
    [a, b, c, d, b'-', e, f, b'-', g, h]
}

/// The year of a date that isn't before the year 0.
fn year_of(date: Date) -> u16
    requires { pos 0 ≤ℤ date.year }
    ensures year { date.year ≡ pos result }
    ensures bound { result < 10000 }
{
    date.year as u16
}

/// The date text of a day. None where the day lies outside the years 0000 to 9999.
pub fn date_text(alloc: Global, day: i32) -> Result<Option<HogText>, AllocError>
    ensures value { IfOk result (λ text. text ≡ day_text day) }
    ensures reads_back { IfOk result (λ text. IfSome text (λ t. date_day t ≡ Some day)) }
{
    let Some(date) = date_of(day) else {
        return Ok(None);
    };
    let bytes = text_bytes(year_of(date), date.month, date.day);
    match HogText::from_bytes(alloc, &bytes) {
        Ok(text) => Ok(Some(text)),
        Err(TextStop::OutOfMemory) => Err(AllocError),
        Err(TextStop::NotUtf8 { at: _ }) => unreachable!(),
    }
}

/// The day of the week from 1 for Monday to 7 for Sunday. None where the day lies outside the years 0000 to 9999.
/// Takes no memory.
pub fn weekday(day: i32) -> Option<u8>
    ensures { result ≡ day_of_week day }
{
    let date = date_of(day)?;
    Some(date.weekday().to_monday_one_offset() as u8)
}
