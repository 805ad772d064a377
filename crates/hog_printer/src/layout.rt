//! Lines.

ghost use Rattle.std.specs.Prelude.{◌≡◌, OnOk, IfOk};
ghost use Rattle.hog_printer.specs.Print.{indentation, line_end, within};
ghost use Rattle.hog_printer.specs.View.{AddsText};

use std::alloc::AllocError;

/// Where statements stand.
#[derive(Clone, Copy, Debug, PartialEq, Eq)]
pub enum Layout {
    /// Each on a line of its own, in so many blocks.
    Lines(usize),
    /// On one line, in an expression.
    OneLine,
}

/// The lines in a block. A block of more depth than a number has would not fit into memory.
pub fn within(at: Layout) -> Result<Layout, AllocError>
    ensures { IfOk result (λ x. x ≡ within at) }
{
    match at {
        Layout::Lines(depth) => match depth.checked_add(1) {
            Some(deeper) => Ok(Layout::Lines(deeper)),
            None => Err(AllocError),
        },
        Layout::OneLine => Ok(Layout::OneLine),
    }
}

/// AddsText the spaces before a line.
fn indent(out: &mut String, depth: usize) -> Result<(), AllocError>
    ensures { OnOk result (AddsText out.old out.new (indentation depth)) }
{
    for _ in 0..depth {
        out.push_str("    ")?;
    }
    Ok(())
}

/// AddsText the end of a line, and what stands before the next.
pub fn end_line(out: &mut String, at: Layout) -> Result<(), AllocError>
    ensures { OnOk result (AddsText out.old out.new (line_end at)) }
{
    match at {
        Layout::Lines(depth) => {
            out.push_str("\n")?;
            indent(out, depth)
        }
        Layout::OneLine => Ok(out.push_str(" ")?),
    }
}
