//! The first fault of elements, and where operations begin.

ghost use Rattle.std.specs.Prelude.{◌≡◌, ℕ, ◌+◌, ◌<◌, ◌≤◌, ◌^◌, ◌∷◌, ◌++◌, length, take, replicate, OnOk};
ghost use Rattle.hog_ops.specs.Table.{size};
ghost use Rattle.hog_ops.specs.View.{op_of};
ghost use Rattle.bytecode_builder.specs.Marks.{Scanned};
ghost use Rattle.bytecode_front.specs.Reading.{stop_at, read_ops};
ghost use Rattle.bytecode_front.specs.Views.{views};

use bytecode_front::front::{Front, behind, front_at, front_part};
use bytecode_front::stop::{CodeStop, stop_at};
use hog_ops::Op;
use serde_json::Value;
use std::alloc::AllocError;

/// How many elements the operation took.
fn size_of(op: Op) -> usize
    ensures { result ≡ size (op_of op) }
{
    op.len()
}

/// Adds a mark, and zeros behind it.
fn mark(marks: &mut Vec<u16>, mark: u16, zeros: usize) -> Result<(), AllocError>
    ensures { OnOk result (marks.new.items ≡ marks.old.items ++ mark ∷ replicate zeros 0) }
{
    marks.push(mark)?;
    for _i in 0..zeros {
        marks.push(0)?;
    }
    Ok(())
}

/// Reads elements that begin at a place of the array, where so many bodies may still stand in
/// one another. Answers the first fault from the left; where there is none, adds the marks of
/// the operations.
pub fn scan(items: &[Value], room: u16, at: usize, marks: &mut Vec<u16>) -> Result<(), CodeStop>
    requires place { at + length items.now < 2 ^ 62 }
    requires room { room ≤ 1000 }
    ensures { Scanned room result marks.old.items marks.new.items
        (read_ops room at (views items.now)) }
{
    let mut rest = items;
    let mut place = at;
    while !rest.is_empty() {
        match front_at(rest, room) {
            Front::Faulty(why) => return Err(stop_at(place, why)),
            Front::Found(op) => {
                let size = size_of(op);
                mark(marks, room + 1, size - 1)?;
                rest = behind(rest, size);
                place += size;
            }
            Front::Text => {
                mark(marks, room + 1, 1)?;
                rest = behind(rest, 2);
                place += 2;
            }
            Front::Opens { captures, len } => {
                let len = len as usize;
                let tail = 2 * captures as usize;
                mark(marks, room + 1, 4)?;
                let body = front_part(behind(rest, 5), len);
                match scan(body, room - 1, place + 5, marks) {
                    Ok(()) => {
                        mark(marks, room, 1 + tail)?;
                        rest = behind(rest, 7 + len + tail);
                        place += 7 + len + tail;
                    }
                    Err(stop) => return Err(stop),
                }
            }
        }
    }
    Ok(())
}
