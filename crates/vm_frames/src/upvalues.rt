//! Variables that functions have captured.

ghost use Rattle.std.specs.Prelude.{◌≡◌, ◌<◌, ◌≤◌, ◌^◌, ℕ, [], All, length, map, slice_get, slice_set, option_map, IsTrue, IfOk, IfSome, Some};
ghost use Rattle.hog_value.specs.Values.{Val};
ghost use Rattle.vm_course.specs.State.{Frame as FrameView, Closed as Shut};
ghost use Rattle.vm_course.specs.Stack.{close, capture_all};
ghost use Rattle.vm_frames.specs.Parts.{ClosedBelow, places_differ};
ghost use Rattle.vm_frames.specs.Views.{upvalue_of};

use crate::listed::{Listed, open_list};
use crate::stack::Stack;
use hog_ops::Capture;
use hog_value::Value;
use index_lists::Lists;
use std::alloc::{AllocError, Global};
use std::marker::Model;

/// A variable that functions have captured.
#[derive(Clone, Copy)]
pub enum Upvalue {
    /// The variable stands on the stack, at this place counted from the bottom.
    Opened(u32),
    /// The variable has left the stack, and this is its value.
    Closed(Value),
}

/// Upvalues, fewer than 2^32, by their numbers; no two are open at one place. Contracts see the list of the upvalues.
#[derive(Drop)]
pub struct Upvalues {
    listed: Listed,
}

impl Model for Upvalues {
    ghost use Rattle.std.specs.Prelude.{List};
    ghost use Rattle.vm_course.specs.State.{Upvalue as UpvalueView};

    ghost Value = { List UpvalueView };

    ghost use Rattle.vm_frames.specs.Room.{seen, IsKept};

    ghost view = { λ u. seen u.listed };

    ghost invariant = { λ u. IsKept u.listed };
}

impl Upvalues {
    /// No upvalues. Takes no memory.
    pub fn new(alloc: Global) -> Upvalues
        ensures { result ≡ [] }
    {
        Upvalues {
            listed: Listed {
                list: Vec::new(alloc),
                open_ones: Lists::new(alloc, 1),
            },
        }
    }

    /// The upvalues of a list, in its order.
    pub fn from_list(alloc: Global, list: Vec<Upvalue>) -> Result<Upvalues, AllocError>
        requires few { length list.items < 2 ^ 32 }
        requires apart { IsTrue (places_differ (map upvalue_of list.items)) }
        ensures { IfOk result (λ upvalues. upvalues ≡ map upvalue_of list.items) }
    {
        let open_ones = open_list(alloc, &list)?;
        Ok(Upvalues {
            listed: Listed { list, open_ones },
        })
    }

    /// The upvalues, by number. Takes no memory.
    pub fn list(&self) -> &[Upvalue]
        ensures { self.now ≡ map upvalue_of result.now }
    {
        self.listed.list.as_slice()
    }

    /// The upvalue with a number. Takes no memory.
    pub fn get(&self, number: u32) -> Option<Upvalue>
        ensures value { option_map upvalue_of result ≡ slice_get self.now number }
        ensures names { (n : ℕ) → All (ClosedBelow n) self.now → IfSome result (λ u. ClosedBelow n (upvalue_of u)) }
    {
        self.at(number)
    }

    /// The upvalue with a number. Takes no memory.
    fn at(&self, number: u32) -> Option<Upvalue>
        ensures { option_map upvalue_of result ≡ slice_get self.now number }
    {
        self.listed.list.get(number as usize).copied()
    }

    /// Closes the upvalues that are open at a height or above it: each takes the value at its place along. Takes no memory.
    #[inline(always)]
    pub fn close(&mut self, height: u32, stack: &Stack)
        ensures { self.new ≡ map (close height stack.now) self.old }
    {
        // Most stacks are cut where no variable is captured.
        if self.listed.open_ones.first(0).is_some() {
            self.listed.close_from(height, stack);
        }
    }

    /// Sets what a closed upvalue has taken along. Takes no memory.
    pub fn set(&mut self, number: u32, v: Value)
        requires { (old : Val) × (slice_get self.old number ≡ Some (Shut old)) }
        ensures { self.new ≡ slice_set self.old number (Shut v) }
    {
        self.listed.list[number as usize] = Upvalue::Closed(v);
    }

    /// The numbers of the upvalues that are captured of a frame whose locals begin at `base`; the stack has `height`
    /// values. The memory is taken before anything changes.
    pub fn capture_all(
        &mut self,
        alloc: Global,
        height: usize,
        base: u32,
        captured: &[u32],
        captures: &[Capture],
    ) -> Result<Vec<u32>, AllocError>
        requires { height ≤ 2 ^ 32 }
        ensures is { IfOk result (λ ns. (f : FrameView) → f.base ≡ base → capture_all height f captured.now captures.now self.old ≡ (ns.items, self.new)) }
        ensures names { (n : ℕ) → All (ClosedBelow n) self.old → All (ClosedBelow n) self.new }
    {
        let mut numbers = Vec::with_capacity(alloc, captures.len())?;
        self.listed.reserve(captures.len())?;
        for c in captures {
            let number = self.listed.capture(height, base, captured, *c);
            numbers.push_reserved(number);
        }
        Ok(numbers)
    }
}
