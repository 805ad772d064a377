//! The trait of clocks.

use std::thread;

/// Shows moments in milliseconds.
pub trait Clock {
    ghost use Rattle.std.specs.Prelude.{ℕ};

    /// The moments that a clock of this type may show.
    ghost shows: { ℕ → Type 0 };

    /// The moment that it shows.
    fn now(&self) -> u64
        ensures { shows result };

    /// Lets time pass, about so many milliseconds where the clock is a real one. It may return at once.
    fn pause(&self, _milliseconds: u64) {
        thread::yield_now();
    }
}
