//! What a run has spent.

use std::marker::Model;

/// The most turns of a run.
pub const MAX_TURNS: u32 = 100_000;

/// The most units of memory of a run.
pub const MAX_UNITS: u32 = 4_194_304;

/// The greatest depth of a run.
pub const MAX_DEPTH: u16 = 256;

/// What a run has spent, within its limits: turns, units of memory, and how deep its calls stand.
#[derive(Clone, Copy, Debug, PartialEq, Eq)]
pub struct Meter {
    pub turns: u32,
    pub units: u32,
    pub depth: u16,
}

impl Model for Meter {
    ghost use Rattle.std.specs.Prelude.{◌≤◌};
    ghost use Rattle.hog_value.specs.Meters.{Spent, max_turns, max_units, max_depth};

    ghost Value = { Spent };

    ghost view = { λ m. record { turns = m.turns; units = m.units; depth = m.depth } };

    ghost invariant = { λ m. (m.turns ≤ max_turns) × (m.units ≤ max_units) × (m.depth ≤ max_depth) };

    ghost inverse = { λ s. record { turns = s.turns; units = s.units; depth = s.depth } };
}

impl Meter {
    ghost use Rattle.std.specs.Prelude.{◌≡◌, ◌<◌, ◌≤◌, ◌+◌, ◌-◌, ◌↔◌, IsTrue};
    ghost use Rattle.std.specs.Bool.{OnTrue, OnFalse};
    ghost use Rattle.hog_value.specs.Meters.{Spent, max_turns, max_units, max_depth};

    /// Nothing is spent.
    pub const fn new() -> Meter
        ensures { result ≡ record { turns = 0; units = 0; depth = 0 } }
    {
        Meter {
            turns: 0,
            units: 0,
            depth: 0,
        }
    }

    /// Spends a turn, where one is left.
    pub fn spend_turn(&mut self) -> bool
        ensures left { IsTrue result ↔ (self.old.turns < max_turns) }
        ensures spent { OnTrue result (self.new ≡ record self.old { turns = self.old.turns + 1 }) }
        ensures unchanged { OnFalse result (self.new ≡ self.old) }
    {
        if self.turns >= MAX_TURNS {
            return false;
        }
        self.turns += 1;
        true
    }

    /// Spends n units, where as many are left.
    pub fn spend_units(&mut self, n: u64) -> bool
        ensures left { IsTrue result ↔ (self.old.units + n ≤ max_units) }
        ensures spent { OnTrue result (self.new ≡ record self.old { units = self.old.units + n }) }
        ensures unchanged { OnFalse result (self.new ≡ self.old) }
    {
        let left = MAX_UNITS - self.units;
        if n > u64::from(left) {
            return false;
        }
        self.units += n as u32;
        true
    }

    /// Goes one call deeper, where the depth allows it.
    pub fn enter(&mut self) -> bool
        ensures allowed { IsTrue result ↔ (self.old.depth < max_depth) }
        ensures entered { OnTrue result (self.new ≡ record self.old { depth = self.old.depth + 1 }) }
        ensures unchanged { OnFalse result (self.new ≡ self.old) }
    {
        if self.depth >= MAX_DEPTH {
            return false;
        }
        self.depth += 1;
        true
    }

    /// Comes back out of a call.
    pub fn leave(&mut self)
        requires { 0 < self.old.depth }
        ensures { self.new ≡ record self.old { depth = self.old.depth - 1 } }
    {
        self.depth -= 1;
    }
}
