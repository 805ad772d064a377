//! The shapes of places.

ghost use Rattle.std.specs.Prelude.{◌≡◌, ◌≤◌, ◌+◌, ◌^◌, [], drop, OnOk, IfSome, MatchOption, Some, None, Option, ℕ};
ghost use Rattle.bytecode_check.specs.Shape.{Shape, shaped, same_shape, floor, before_catches, shape_at};
ghost use Rattle.bytecode_check.specs.Noted.{tries_in, seen, IsKnown, Grows, give_one};
ghost use Rattle.bytecode_check.specs.Verdict.{Told};

use crate::stops::VerifyStop;
use indexmap::IndexMap;
use std::alloc::Global;
use std::marker::Model;

/// How many values a call has on the stack, and the catch place of the innermost open try.
#[derive(Clone, Copy, Debug, PartialEq, Eq)]
pub struct FrameShape {
    pub depth: usize,
    pub within: Option<usize>,
}

/// The shapes of places. Contracts see them with all open tries.
#[derive(Drop)]
pub(crate) struct PlaceShapes {
    map: IndexMap<usize, FrameShape>,
}

impl Model for PlaceShapes {
    ghost use Rattle.std.specs.Prelude.{[]};
    ghost use Rattle.bytecode_check.specs.Shape.{Shapes};
    ghost use Rattle.bytecode_check.specs.Noted.{all_seen, Kept};

    ghost Value = { Shapes };

    ghost view = { λ s. all_seen [] s.map.entries };

    ghost invariant = { λ s. Kept s.map.entries };
}

impl PlaceShapes {
    /// Takes no memory.
    pub fn new(alloc: Global) -> PlaceShapes
        ensures { result ≡ [] }
    {
        PlaceShapes {
            map: IndexMap::new(alloc),
        }
    }

    /// The shape of a place. Takes no memory.
    pub fn get(&self, place: usize) -> Option<FrameShape>
        ensures shape { MatchOption result (shape_at self.now place ≡ None) (λ f. shape_at self.now place ≡ Some (seen self.now f)) }
        ensures known { IfSome result (λ f. IsKnown self.now f.within) }
        ensures grown { IfSome result (λ f. f.depth ≤ 2 ^ 32 + place) }
    {
        self.map.get(&place).copied()
    }

    /// What stood on the stack before the innermost try was opened. Takes no memory.
    pub fn floor(&self, shape: FrameShape) -> usize
        ensures { result ≡ floor (tries_in self.now shape.within) }
    {
        match shape.within.and_then(|catch| self.get(catch)) {
            None => 0,
            Some(caught) => caught.depth.saturating_sub(1),
        }
    }

    /// The same shape without the innermost try. Takes no memory.
    pub fn without_try(&self, shape: FrameShape) -> FrameShape
        ensures value { seen self.now result ≡ shaped shape.depth (drop 1 (tries_in self.now shape.within)) }
        ensures known { IsKnown self.now result.within }
        ensures depth { result.depth ≡ shape.depth }
    {
        let around = shape.within.and_then(|catch| self.get(catch));
        FrameShape {
            depth: shape.depth,
            within: around.and_then(|caught| caught.within),
        }
    }

    /// Whether a place stands before the catch place of each open try. Takes no memory.
    fn is_before(&self, place: usize, shape: FrameShape) -> bool
        requires { IsKnown self.now shape.within }
        ensures { result ≡ before_catches place (tries_in self.now shape.within) }
    {
        // What the map keeps of catch places is known from here on.
        let _map = &self.map;
        match shape.within {
            None => true,
            Some(catch) => place < catch,
        }
    }

    /// Whether two shapes are the same. Takes no memory.
    fn is_same(&self, one: FrameShape, other: FrameShape) -> bool
        requires one { IsKnown self.now one.within }
        requires other { IsKnown self.now other.within }
        ensures { result ≡ same_shape (seen self.now one) (seen self.now other) }
    {
        one == other
    }

    /// Gives its shape to a place to which the operation at `at` leads.
    pub fn give(&mut self, at: usize, place: usize, shape: FrameShape) -> Result<(), VerifyStop>
        requires known { IsKnown self.old shape.within }
        requires grown { shape.depth ≤ 2 ^ 32 + at + 1 }
        ensures told { Told result self.new (give_one at (place, seen self.old shape) self.old) }
        ensures there { OnOk result (shape_at self.new place ≡ Some (seen self.old shape)) }
        ensures grows { OnOk result (Grows self.old self.new) }
    {
        if !self.is_before(place, shape) {
            return Err(VerifyStop::ShapesDiffer { at });
        }
        match self.get(place) {
            Some(old) if self.is_same(old, shape) => Ok(()),
            None if at < place => match self.map.insert(place, shape) {
                Ok(_) => Ok(()),
                Err(_) => Err(VerifyStop::OutOfMemory),
            },
            _ => Err(VerifyStop::ShapesDiffer { at }),
        }
    }
}
