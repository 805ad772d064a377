//! Where bytes come from, and where they go.

/// A read or a write failed.
#[derive(Clone, Copy, Debug, PartialEq, Eq)]
pub struct Failed;

/// Where bytes come from.
pub trait Source {
    ghost use Rattle.std.specs.Prelude.{◌≡◌, ◌<◌, ◌≤◌, ℕ, List, [], Option, Some, length, take, drop, IfOk, OnErr};
    ghost use Rattle.hog_outside.specs.Faults.{Rose};

    /// How many calls failed. It stands still at its greatest.
    ghost faults: { Self → ℕ };

    /// The bytes that it has left, where it tells them.
    ghost left: { Self → Option (List ℕ) };

    /// Reads bytes into the front of `buf`, and says how many. No bytes are read into a buffer that isn't
    /// empty only at the end. What lies in `buf` behind them, and after a failure, is left open.
    fn read(&mut self, buf: &mut [u8]) -> Result<usize, Failed>
        ensures within { IfOk result (λ n. n ≤ length buf.old) }
        ensures bytes { IfOk result (λ n. (xs : List ℕ) → left self.old ≡ Some xs → take n buf.new ≡ take n xs) }
        ensures rest { IfOk result (λ n. (xs : List ℕ) → left self.old ≡ Some xs → left self.new ≡ Some (drop n xs)) }
        ensures there { IfOk result (λ n. (xs : List ℕ) → left self.old ≡ Some xs → n ≤ length xs) }
        ensures end { IfOk result (λ n. n ≡ 0 → 0 < length buf.old → (xs : List ℕ) → left self.old ≡ Some xs → xs ≡ []) }
        ensures unread { OnErr result (left self.new ≡ left self.old) }
        ensures failed { OnErr result (Rose (faults self.old) (faults self.new)) }
        ensures count { faults self.old ≤ faults self.new };
}

/// Where bytes go.
pub trait Sink {
    ghost use Rattle.std.specs.Prelude.{◌≡◌, ◌<◌, ◌≤◌, ◌++◌, ℕ, List, Option, Some, length, take, IfOk, OnErr};
    ghost use Rattle.hog_outside.specs.Faults.{Rose};

    /// How many calls failed. It stands still at its greatest.
    ghost faults: { Self → ℕ };

    /// The bytes that it took, where it tells them.
    ghost taken: { Self → Option (List ℕ) };

    /// Takes bytes from the front of `piece`, and says how many: some, where the piece isn't empty.
    fn write(&mut self, piece: &[u8]) -> Result<usize, Failed>
        ensures within { IfOk result (λ n. n ≤ length piece.now) }
        ensures some { IfOk result (λ n. 0 < length piece.now → 0 < n) }
        ensures bytes { IfOk result (λ n. (xs : List ℕ) → taken self.old ≡ Some xs → taken self.new ≡ Some (xs ++ take n piece.now)) }
        ensures unwritten { OnErr result (taken self.new ≡ taken self.old) }
        ensures failed { OnErr result (Rose (faults self.old) (faults self.new)) }
        ensures count { faults self.old ≤ faults self.new };
}
