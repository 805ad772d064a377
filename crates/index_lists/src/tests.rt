//! Nodes that go in first and last, falling and rising, come out in their order, and the order is asked at most twice for each.

use crate::{Before, Lists};
use std::cell::Cell;
use std::test::Fail;

/// By number; it counts how often it is asked.
#[derive(Drop)]
struct ByNumber {
    asked: Cell<u32>,
}

impl Before for ByNumber {
    ghost use Rattle.std.specs.Prelude.{nat_lt};
    ghost use Rattle.index_lists.specs.Numbers.{nat_lt-strict};

    ghost comes = { λ _. nat_lt };

    ghost strict = { λ _. nat_lt-strict };

    fn before(&self, a: u32, b: u32) -> bool {
        self.asked.set(self.asked.get().wrapping_add(1));
        a < b
    }
}

#[test]
fn inserts_at_both_ends_are_constant(rt: HostRuntime) -> Result<(), Fail> {
    let order = ByNumber {
        asked: Cell::new(0),
    };
    let mut lists = Lists::new(rt.alloc(), 1);
    assert_eq!(rt; lists.first(0), None);
    lists.reserve(100)?;
    'grows: for k in 0..50 {
        lists.insert_by(0, 49 - k, &order);
        lists.insert_by(0, 50 + k, &order);
    }
    // Two for each that goes first, but for the very first, and one for each that goes last.
    assert_eq!(rt; order.asked.get(), 148);
    let mut at = lists.first(0);
    'rises: for k in 0..100 {
        assert_eq!(rt; at, Some(k));
        at = lists.next(k);
    }
    assert_eq!(rt; at, None);
    Ok(())
}
