//! The machine's clock. What it shows is trusted.

use crate::clock::Clock;
use std::thread;
use std::time::{Duration, SystemTime};

/// Shows the milliseconds since the start of 1970, and 0 where the system gives no reading.
#[derive(Drop)]
pub struct MachineClock<R: std::time::Clock> {
    rt: R,
}

impl<R: std::time::Clock> MachineClock<R> {
    pub fn new(rt: R) -> MachineClock<R> {
        MachineClock { rt }
    }
}

impl<R: std::time::Clock> Clock for MachineClock<R> {
    ghost use Rattle.std.specs.Prelude.{ℕ};

    ghost shows = { λ _. Unit {0} };

    fn now(&self) -> u64 {
        let Ok(time) = SystemTime::now(&self.rt) else {
            return 0;
        };
        match time.duration_since(SystemTime::UNIX_EPOCH) {
            Ok(since) => u64::try_from(since.as_millis()).unwrap_or(u64::MAX),
            Err(_) => 0,
        }
    }

    fn pause(&self, milliseconds: u64) {
        thread::sleep(&self.rt, Duration::from_millis(milliseconds));
    }
}

#[cfg(test)]
mod tests {
    use crate::clock::Clock;
    use crate::machine::MachineClock;
    use std::test::Fail;

    #[test]
    fn time_passes(rt: HostRuntime) -> Result<(), Fail> {
        let clock = MachineClock::new(&rt);
        let before = clock.now();
        clock.pause(20);
        let after = clock.now();
        // The year 2020 has come, and the pause was one.
        assert!(rt; before > 1577836800000);
        assert!(rt; after.saturating_sub(before) >= 10);
        Ok(())
    }
}
