//! Numbers, names and operators.

ghost use Rattle.std.specs.Prelude.{◌≡◌, OnOk};
ghost use Rattle.std.specs.Fmt.{signed_decimal};
ghost use Rattle.hog_tree.specs.View.{words_of, option_word_of};
ghost use Rattle.hog_printer.specs.Print.{operator, names, bound};
ghost use Rattle.hog_printer.specs.View.{AddsText};

use hog_tree::tree::{BinaryOp, Named, Names};
use hog_value::HogText;
use itoa::Buffer;
use std::alloc::AllocError;
use std::convert::AsStr;

/// An operator with a space on either side.
pub fn operator(op: BinaryOp) -> &'static str
    ensures { result.now ≡ operator op }
{
    match op {
        BinaryOp::Or => " or ",
        BinaryOp::And => " and ",
        BinaryOp::Equal => " == ",
        BinaryOp::NotEqual => " != ",
        BinaryOp::Less => " < ",
        BinaryOp::LessEqual => " <= ",
        BinaryOp::Greater => " > ",
        BinaryOp::GreaterEqual => " >= ",
        BinaryOp::IsIn => " in ",
        BinaryOp::NotIn => " not in ",
        BinaryOp::Plus => " + ",
        BinaryOp::Minus => " - ",
        BinaryOp::Times => " * ",
    }
}

/// AddsText a whole number.
pub fn number(out: &mut String, n: i64) -> Result<(), AllocError>
    ensures { OnOk result (AddsText out.old out.new (signed_decimal n)) }
{
    let mut buffer = Buffer::new();
    out.push_str(buffer.format(n))?;
    Ok(())
}

/// AddsText a word.
pub fn word(out: &mut String, text: &HogText) -> Result<(), AllocError>
    ensures { OnOk result (AddsText out.old out.new text.now) }
{
    out.push_str(text.as_str())?;
    Ok(())
}

/// AddsText names with commas between them.
pub fn names(out: &mut String, list: &Names) -> Result<(), AllocError>
    ensures { OnOk result (AddsText out.old out.new (names (words_of list.now))) }
{
    let mut comma = "";
    for name in list.items() {
        out.push_str(comma)?;
        word(out, &name.word)?;
        comma = ", ";
    }
    Ok(())
}

/// AddsText the names of a `for .. in`.
pub fn bound(out: &mut String, key: &Option<Named>, value: &Named) -> Result<(), AllocError>
    ensures { OnOk result (AddsText out.old out.new (bound (option_word_of key.now) value.now.word)) }
{
    if let Some(key) = key {
        word(out, &key.word)?;
        out.push_str(", ")?;
    }
    word(out, &value.word)
}
