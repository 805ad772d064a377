//! What stands at each place of a code.

ghost use Rattle.std.specs.Prelude.{◌≡◌, ◌++◌, ◌∷◌, [], replicate, OnOk, IfOk};
ghost use Rattle.hog_ops.specs.View.{op_of, ops_of};
ghost use Rattle.vm_course.specs.State.{Operand as Rest, op_slots, slots, code_slots};
ghost use Rattle.vm_frames.specs.Places.{slot_of, slots_of};

use hog_ops::{Code, Op};
use std::alloc::{AllocError, Global};

/// An element of a code: where an operation begins, where a body ends, or one of an operation's operands.
#[derive(Clone, Copy, Drop)]
pub(crate) enum Slot<'c> {
    Begins(&'c Op),
    BodyEnds,
    Operand,
}

fn add_operands<'c>(places: &mut Vec<Slot<'c>>, count: usize) -> Result<(), AllocError>
    ensures { OnOk result (slots_of places.new.items ≡ slots_of places.old.items ++ replicate count Rest) }
{
    for _i in 0..count {
        places.push(Slot::Operand)?;
    }
    Ok(())
}

/// The elements of an operation, and those of its body where it has one.
#[cycle(places)]
fn add_op<'c>(places: &mut Vec<Slot<'c>>, op: &'c Op) -> Result<(), AllocError>
    ensures { OnOk result (slots_of places.new.items ≡ slots_of places.old.items ++ op_slots (op_of op.now)) }
{
    places.push(Slot::Begins(op))?;
    match op {
        Op::Callable(c) => {
            add_operands(places, 4)?;
            add_code(places, &c.body)?;
            places.push(Slot::BodyEnds)?;
            let captures = c.captures.items().len();
            add_operands(places, 1 + (captures + captures))
        }
        _ => add_operands(places, op.len() - 1),
    }
}

#[cycle(places)]
fn add_code<'c>(places: &mut Vec<Slot<'c>>, code: &'c Code) -> Result<(), AllocError>
    ensures { OnOk result (slots_of places.new.items ≡ slots_of places.old.items ++ slots code.now) }
{
    for op in code.ops() {
        add_op(places, op)?;
    }
    Ok(())
}

/// What stands at each place of a code.
pub(crate) fn slots<'c>(alloc: Global, code: &'c Code) -> Result<Vec<Slot<'c>>, AllocError>
    ensures { IfOk result (λ v. slots_of v.items ≡ code_slots code.now) }
{
    let mut places = Vec::with_capacity(alloc, 2 + code.elements() as usize)?;
    add_operands(&mut places, 2)?;
    add_code(&mut places, code)?;
    Ok(places)
}
