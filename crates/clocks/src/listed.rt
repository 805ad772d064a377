//! A clock that shows the moments of a list.

ghost use Rattle.std.specs.Prelude.{◌≡◌};

use crate::clock::Clock;
use std::marker::Model;
use std::sync::atomic::{AtomicU64, Ordering};

/// Shows the moments of its list in turn, then the last one again and again, and 0 where the list is empty.
#[derive(Drop)]
pub struct ListClock {
    moments: Vec<u64>,
    // How many readings there were.
    readings: AtomicU64,
}

impl Model for ListClock {
    ghost use Rattle.std.specs.Prelude.{ℕ, List};

    ghost Value = { List ℕ };

    ghost view = { λ c. c.moments.items };
}

impl ListClock {
    /// Takes no memory.
    pub fn new(moments: Vec<u64>) -> ListClock
        ensures { result ≡ moments.items }
    {
        ListClock {
            moments,
            readings: AtomicU64::new(0),
        }
    }
}

impl Clock for ListClock {
    ghost use Rattle.std.specs.Prelude.{ℕ};
    ghost use Rattle.clocks.specs.Moments.{IsListed};

    ghost shows = { λ _. Unit {0} };

    /// The turn of a reading is for tests: other threads may read at any time.
    fn now(&self) -> u64
        ensures { IsListed self.now result }
    {
        let reading = self.readings.fetch_add(1, Ordering::SeqCst);
        match self.moments.last() {
            Some(last) => *self.moments.get(reading as usize).unwrap_or(last),
            None => 0,
        }
    }
}

#[cfg(test)]
mod tests {
    use crate::clock::Clock;
    use crate::listed::ListClock;
    use std::test::Fail;

    #[test]
    fn moments_come_in_turn(rt: HostRuntime) -> Result<(), Fail> {
        let clock = ListClock::new(vec![in rt.alloc(); 7u64, 30000, 9]?);
        assert_eq!(rt; clock.now(), 7);
        assert_eq!(rt; clock.now(), 30000);
        clock.pause(1000);
        assert_eq!(rt; clock.now(), 9);
        assert_eq!(rt; clock.now(), 9);
        assert_eq!(rt; ListClock::new(Vec::new(rt.alloc())).now(), 0);
        Ok(())
    }
}
