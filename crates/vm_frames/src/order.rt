//! The order in which open upvalues stand in their list.

ghost use Rattle.std.specs.Prelude.{◌≡◌};
ghost use Rattle.vm_frames.specs.Order.{open_at, key_of};

use crate::upvalues::Upvalue;
use index_lists::Before;
use std::cmp::Reverse;

/// Where an upvalue comes in the order: that at the greatest place first, and closed ones behind all that are open.
#[derive(Clone, Copy, PartialEq, Eq, PartialOrd, Ord)]
struct Key {
    shut: bool,
    place: Reverse<u32>,
    number: u32,
}

/// By place, the greatest first.
#[derive(Clone, Copy)]
pub(crate) struct ByPlace<'a> {
    pub(crate) list: &'a [Upvalue],
}

impl<'a> Before for ByPlace<'a> {
    ghost use Rattle.vm_frames.specs.Order.{by_place, by_place-strict};

    ghost comes = { λ order. by_place order.list.now };

    ghost strict = { λ order. by_place-strict order.list.now };

    fn before(&self, a: u32, b: u32) -> bool {
        key_of(self.list, a).cmp(&key_of(self.list, b)).is_lt()
    }
}

/// The place at which the upvalue with a number is open. Takes no memory.
pub(crate) fn open_place(list: &[Upvalue], number: u32) -> Option<u32>
    ensures { result ≡ open_at list.now number }
{
    match list.get(number as usize) {
        Some(Upvalue::Opened(place)) => Some(*place),
        _ => None,
    }
}

fn key_of(list: &[Upvalue], number: u32) -> Key
    ensures { result ≡ key_of number (open_at list.now number) }
{
    match open_place(list, number) {
        Some(place) => Key {
            shut: false,
            place: Reverse(place),
            number,
        },
        None => Key {
            shut: true,
            place: Reverse(0),
            number,
        },
    }
}
