//! Upvalues by number, of which the open ones stand in a list.

ghost use Rattle.std.specs.Prelude.{◌≡◌, ◌+◌, ◌<◌, ◌≤◌, ◌^◌, ℕ, All, List, [], ◌∷◌, ◌++◌, length, map, slice_get, slice_set, vec_len, IsTrue, IsOk, IsSome, IfOk, IfNone, IfSome, Some, None};
ghost use Rattle.index_lists.specs.Lists.{nodes_of};
ghost use Rattle.vm_course.specs.State.{Frame as FrameView, Opened as Open};
ghost use Rattle.vm_course.specs.Stack.{close, find_open, or_opened, or_closed, capture_one};
ghost use Rattle.vm_frames.specs.Order.{open_at};
ghost use Rattle.vm_frames.specs.OpenList.{IsOpenList, IsOpenBelow};
ghost use Rattle.vm_frames.specs.Parts.{ClosedBelow, places_differ};
ghost use Rattle.vm_frames.specs.Room.{seen, IsKept, IsRoomy};
ghost use Rattle.vm_frames.specs.Views.{upvalue_of};
ghost use Rattle.vm_frames.specs.declared.upvalues.Upvalue.TheVariants.{Closed as Shut};

use crate::order::{ByPlace, open_place};
use crate::stack::Stack;
use crate::upvalues::Upvalue;
use hog_ops::Capture;
use hog_value::Value;
use index_lists::Lists;
use std::alloc::{AllocError, Global};

/// Upvalues by number, and the numbers of the open ones in one list, that at the greatest place first.
#[derive(Drop)]
pub(crate) struct Listed {
    pub(crate) list: Vec<Upvalue>,
    pub(crate) open_ones: Lists,
}

/// Puts the number of an upvalue into the list, where it is open; those of the upvalues before it stand there. Takes no
/// memory.
fn note(open_ones: &mut Lists, list: &[Upvalue], number: u32)
    requires before { IsOpenBelow number list.now open_ones.old }
    requires reserved { number < open_ones.old.reserved }
    ensures with_it { IsOpenBelow (number + 1) list.now open_ones.new }
    ensures reserved { open_ones.new.reserved ≡ open_ones.old.reserved }
{
    if open_place(list, number).is_some() {
        open_ones.insert_by(0, number, &ByPlace { list });
    }
}

/// The list of a list's open upvalues.
pub(crate) fn open_list(alloc: Global, list: &[Upvalue]) -> Result<Lists, AllocError>
    requires few { length list.now < 2 ^ 32 }
    requires apart { IsTrue (places_differ (map upvalue_of list.now)) }
    ensures { IfOk result (IsOpenList list.now) }
{
    let count = list.len() as u32;
    let mut open_ones = Lists::new(alloc, 1);
    open_ones.reserve(count)?;
    for number in 0..count {
        note(&mut open_ones, list, number);
    }
    Ok(open_ones)
}

impl Listed {
    /// Makes room for so many more upvalues.
    pub(crate) fn reserve(&mut self, count: usize) -> Result<(), AllocError>
        requires { IsKept self.old }
        ensures same { self.new.list.items ≡ self.old.list.items }
        ensures kept { IsKept self.new }
        ensures room { IsOk result → IsRoomy count self.new }
    {
        let most = self.list.len().saturating_add(count);
        if most > u32::MAX as usize {
            return Err(AllocError);
        }
        self.list.reserve(count)?;
        self.open_ones.reserve(most as u32)
    }

    /// Adds an upvalue, at a place where none is open if it is open; its number. Takes no memory.
    fn add(&mut self, upvalue: Upvalue) -> u32
        requires room { IsRoomy 1 self.old }
        requires apart { (p : ℕ) → upvalue_of upvalue ≡ Open p → find_open (seen self.old) p ≡ None }
        ensures number { result ≡ length self.old.list.items }
        ensures added { self.new.list.items ≡ self.old.list.items ++ upvalue ∷ [] }
        ensures room { (n : ℕ) → IsRoomy (n + 1) self.old → IsRoomy n self.new }
    {
        let number = self.list.len() as u32;
        self.list.push_reserved(upvalue);
        note(&mut self.open_ones, self.list.as_slice(), number);
        number
    }

    /// Adds a closed upvalue of null; its number. Takes no memory.
    fn add_null(&mut self) -> u32
        requires room { IsRoomy 1 self.old }
        ensures is { (result, seen self.new) ≡ or_closed (seen self.old) None }
        ensures names { (n : ℕ) → All (ClosedBelow n) (seen self.old) → All (ClosedBelow n) (seen self.new) }
        ensures room { (n : ℕ) → IsRoomy (n + 1) self.old → IsRoomy n self.new }
    {
        self.add(Upvalue::Closed(Value::Null))
    }

    /// The number of the upvalue that is open at a place, or of a new one. Takes no memory.
    fn open_at(&mut self, place: u32) -> u32
        requires room { IsRoomy 1 self.old }
        ensures is { (result, seen self.new) ≡ or_opened place (seen self.old) (find_open (seen self.old) place) }
        ensures names { (n : ℕ) → All (ClosedBelow n) (seen self.old) → All (ClosedBelow n) (seen self.new) }
        ensures room { (n : ℕ) → IsRoomy (n + 1) self.old → IsRoomy n self.new }
    {
        match self.number_at(place) {
            Some(number) => number,
            None => self.add(Upvalue::Opened(place)),
        }
    }

    /// The number of the upvalue that is open at a place, past those at greater places. Takes no memory.
    fn number_at(&self, place: u32) -> Option<u32>
        requires { IsKept self.now }
        ensures { result ≡ find_open (seen self.now) place }
    {
        let mut at = self.open_ones.first(0);
        'walk: while let Some(number) = at {
            match open_place(self.list.as_slice(), number) {
                Some(p) => {
                    if p == place {
                        return Some(number);
                    }
                    if p < place {
                        return None;
                    }
                }
                None => return None,
            }
            at = self.open_ones.next(number);
        }
        None
    }

    /// The number of the upvalue that is captured of a frame whose locals begin at `base`; the stack has `height` values.
    /// Takes no memory.
    pub(crate) fn capture(&mut self, height: usize, base: u32, captured: &[u32], c: Capture) -> u32
        requires height { height ≤ 2 ^ 32 }
        requires room { IsRoomy 1 self.old }
        ensures is { (f : FrameView) → f.base ≡ base → (result, seen self.new) ≡ capture_one height f captured.now c (seen self.old) }
        ensures names { (n : ℕ) → All (ClosedBelow n) (seen self.old) → All (ClosedBelow n) (seen self.new) }
        ensures room { (n : ℕ) → IsRoomy (n + 1) self.old → IsRoomy n self.new }
    {
        if !c.local {
            return self.capture_upvalue(captured, c.index);
        }
        let place = base as usize + c.index as usize;
        if place < height {
            return self.open_at(place as u32);
        }
        self.add_null()
    }

    /// The number that a function has captured at an index; where there is none, that of a new closed upvalue of null. Takes
    /// no memory.
    fn capture_upvalue(&mut self, captured: &[u32], index: u32) -> u32
        requires room { IsRoomy 1 self.old }
        ensures is { (result, seen self.new) ≡ or_closed (seen self.old) (slice_get captured.now index) }
        ensures names { (n : ℕ) → All (ClosedBelow n) (seen self.old) → All (ClosedBelow n) (seen self.new) }
        ensures room { (n : ℕ) → IsRoomy (n + 1) self.old → IsRoomy n self.new }
    {
        match captured.get(index as usize) {
            Some(number) => *number,
            None => self.add_null(),
        }
    }

    /// The greatest place at which an upvalue is open, and its number, where the place is at a height or above it. Takes no
    /// memory.
    fn highest(&self, height: u32) -> Option<(u32, u32)>
        requires { IsKept self.now }
        ensures none { IfNone result ((n p : ℕ) → open_at self.now.list.items n ≡ Some p → p < height) }
        ensures there { IfSome result (λ h. open_at self.now.list.items h.1 ≡ Some h.0) }
        ensures high { IfSome result (λ h. height ≤ h.0) }
    {
        let number = self.open_ones.first(0)?;
        let place = open_place(self.list.as_slice(), number)?;
        if place < height {
            return None;
        }
        Some((place, number))
    }

    /// Closes an open upvalue, which takes a value along. Takes no memory.
    fn shut(&mut self, number: u32, v: Value)
        requires kept { IsKept self.old }
        requires is_open { IsSome (open_at self.old.list.items number) }
        ensures written { self.new.list.items ≡ slice_set self.old.list.items number (Shut v) }
        ensures kept { IsKept self.new }
        ensures fewer { length (nodes_of self.new.open_ones 0) < length (nodes_of self.old.open_ones 0) }
    {
        self.list[number as usize] = Upvalue::Closed(v);
        self.open_ones.unlink(number);
    }

    /// Closes the upvalues that are open at a height or above it, from the front of the list on: each takes the value at its
    /// place along. Takes no memory.
    #[inline(never)]
    pub(crate) fn close_from(&mut self, height: u32, stack: &Stack)
        requires { IsKept self.old }
        ensures closed { seen self.new ≡ map (close height stack.now) (seen self.old) }
        ensures kept { IsKept self.new }
    {
        'front: while let Some((place, number)) = self.highest(height) {
            let v = stack.at(place as usize).unwrap_or(Value::Null);
            self.shut(number, v);
        }
    }
}
