//! The values of a machine's stack.

ghost use Rattle.std.specs.Prelude.{◌≡◌, ◌<◌, ◌≤◌, ◌-◌, ◌^◌, ℕ, [], ◌∷◌, ◌++◌, All, length, replicate, reverse, slice_range, vec_len, vec_capacity, IsOk, IfOk, IfSome, OnOk, OnErr};
ghost use Rattle.hog_value.specs.Values.{NamesBelow};
ghost use Rattle.hog_value.specs.declared.value.Value.TheVariants.{Null};
ghost use Rattle.vm_course.specs.Stack.{value_at, with_value, keep, top_of, taken};
ghost use Rattle.vm_course.specs.Step.{with_arguments};

use hog_value::Value;
use std::alloc::{AllocError, Global};
use std::marker::Model;

/// Values, fewer than 2^32. Contracts see the list of them, with the top first.
#[derive(Drop)]
pub struct Stack {
    values: Vec<Value>,
}

impl Model for Stack {
    ghost use Rattle.std.specs.Prelude.{List, ◌<◌, ◌^◌, length, reverse};
    ghost use Rattle.hog_value.specs.declared.value.Value.{Value as Val};

    ghost Value = { List Val };

    ghost view = { λ s. reverse s.values.items };

    ghost invariant = { λ s. length s.values.items < 2 ^ 32 };
}

/// Makes room for one more value. A stack of 2^32 - 1 values has none, which is answered as want of memory.
#[inline(never)]
fn make_room(values: &mut Vec<Value>) -> Result<(), AllocError>
    ensures same { values.new.items ≡ values.old.items }
    ensures few { IsOk result → vec_len values.new < 2 ^ 32 - 1 }
    ensures room { IsOk result → vec_len values.new < vec_capacity values.new }
{
    if values.len() >= u32::MAX as usize {
        return Err(AllocError);
    }
    values.reserve(1)
}

impl Stack {
    /// No values. Takes no memory.
    pub fn new(alloc: Global) -> Stack
        ensures { result ≡ [] }
    {
        Stack {
            values: Vec::new(alloc),
        }
    }

    /// A stack of these values, the lowest first. 2^32 and more are answered as want of memory.
    pub fn from_values(values: Vec<Value>) -> Result<Stack, AllocError>
        ensures { IfOk result (λ s. s ≡ reverse values.items) }
    {
        if values.len() > u32::MAX as usize {
            return Err(AllocError);
        }
        Ok(Stack { values })
    }

    /// The values, the lowest first. Takes no memory.
    pub fn values(&self) -> &[Value]
        ensures { self.now ≡ reverse result.now }
    {
        self.values.as_slice()
    }

    /// How many values there are. Takes no memory.
    pub fn len(&self) -> u32
        ensures { result ≡ length self.now }
    {
        self.values.len() as u32
    }

    /// The value at a place, counted from the bottom. Takes no memory.
    pub fn at(&self, place: usize) -> Option<Value>
        ensures value { result ≡ value_at self.now place }
        ensures names { (n : ℕ) → All (NamesBelow n) self.now → IfSome result (NamesBelow n) }
    {
        if place >= self.values.len() {
            return None;
        }
        Some(self.values[place])
    }

    /// The topmost operand of the lowest `len` values, and how many values stand under it. Below `floor` there is none: it
    /// is null then. Takes no memory.
    #[inline(always)]
    pub fn top(&self, floor: u32, len: u32) -> (Value, u32)
        requires { len ≤ length self.now }
        ensures is { top_of floor (keep len self.now) ≡ (result.0, keep result.1 self.now) }
        ensures within { result.1 ≤ len }
        ensures names { (n : ℕ) → All (NamesBelow n) self.now → NamesBelow n result.0 }
    {
        if len == 0 || len <= floor {
            return (Value::Null, len);
        }
        (self.values[len as usize - 1], len - 1)
    }

    /// Keeps the lowest `len` values. Takes no memory.
    #[inline(always)]
    pub fn keep(&mut self, len: u32)
        ensures { self.new ≡ keep len self.old }
    {
        self.values.truncate(len as usize);
    }

    /// Adds a value on top.
    #[inline(always)]
    pub fn push(&mut self, v: Value) -> Result<(), AllocError>
        ensures ok { OnOk result (self.new ≡ v ∷ self.old) }
        ensures err { OnErr result (self.new ≡ self.old) }
    {
        if self.values.len() >= self.values.capacity().min(u32::MAX as usize) {
            make_room(&mut self.values)?;
        }
        self.values.push_reserved(v);
        Ok(())
    }

    /// Adds `n` nulls on top.
    pub fn push_nulls(&mut self, n: u32) -> Result<(), AllocError>
        ensures is { OnOk result (self.new ≡ replicate n Null ++ self.old) }
        ensures names { (m : ℕ) → All (NamesBelow m) self.old → All (NamesBelow m) self.new }
    {
        for _ in 0..n {
            self.push(Value::Null)?;
        }
        Ok(())
    }

    /// Adds values on top, the last of them topmost.
    fn push_all(&mut self, values: &[Value]) -> Result<(), AllocError>
        ensures is { OnOk result (self.new ≡ reverse values.now ++ self.old) }
        ensures names { (m : ℕ) → All (NamesBelow m) values.now → All (NamesBelow m) self.old → All (NamesBelow m) self.new }
    {
        for v in values {
            self.push(*v)?;
        }
        Ok(())
    }

    /// Makes the values above a floor at least `n`: those that are missing are nulls under the others. The floor is a count of
    /// values from the bottom; above a floor higher than the stack there are none. Takes no memory where none is missing.
    pub fn fill(&mut self, alloc: Global, floor: u32, n: u32) -> Result<(), AllocError>
        ensures is { OnOk result (self.new ≡ with_arguments floor n self.old) }
        ensures none_missing { n ≤ length self.old - floor → IsOk result }
        ensures names { (m : ℕ) → All (NamesBelow m) self.old → All (NamesBelow m) self.new }
    {
        let there = self.len().saturating_sub(floor);
        if n <= there {
            return Ok(());
        }
        self.put_nulls(alloc, floor, n - there)
    }

    /// Puts `n` nulls under the values above a floor.
    fn put_nulls(&mut self, alloc: Global, floor: u32, n: u32) -> Result<(), AllocError>
        ensures is { OnOk result (self.new ≡ slice_range self.old 0 (length self.old - floor) ++ (replicate n Null ++ keep floor self.old)) }
        ensures names { (m : ℕ) → All (NamesBelow m) self.old → All (NamesBelow m) self.new }
    {
        let above = self.above(alloc, floor)?;
        self.keep(floor);
        self.push_nulls(n)?;
        self.push_all(&above)
    }

    /// A copy of the values above a floor, the topmost last.
    fn above(&self, alloc: Global, floor: u32) -> Result<Vec<Value>, AllocError>
        ensures is { IfOk result (λ vs. reverse vs.items ≡ slice_range self.now 0 (length self.now - floor)) }
        ensures names { (m : ℕ) → All (NamesBelow m) self.now → IfOk result (λ vs. All (NamesBelow m) vs.items) }
    {
        match self.values.get(floor as usize..) {
            Some(above) => Vec::from_slice(alloc, above),
            None => Ok(Vec::new(alloc)),
        }
    }

    /// Sets the value at a place, counted from the bottom; where there is none nothing changes. Takes no memory.
    pub fn set(&mut self, place: usize, v: Value)
        ensures { self.new ≡ with_value self.old place v }
    {
        if place < self.values.len() {
            self.values[place] = v;
        }
    }

    /// So many operands, the topmost first, and how many values stand under them. Below `floor` there are none: they are
    /// null then.
    pub fn popped(&self, alloc: Global, floor: u32, n: u64) -> Result<(Vec<Value>, u32), AllocError>
        ensures is { IfOk result (λ r. taken floor n self.now ≡ (r.0.items, keep r.1 self.now)) }
        ensures count { IfOk result (λ r. length r.0.items ≡ n) }
        ensures within { IfOk result (λ r. r.1 ≤ length self.now) }
        ensures names { (m : ℕ) → All (NamesBelow m) self.now → IfOk result (λ r. All (NamesBelow m) r.0.items) }
    {
        let mut values = Vec::new(alloc);
        let mut rest = self.len();
        for _ in 0..n {
            let (v, under) = self.top(floor, rest);
            values.push(v)?;
            rest = under;
        }
        Ok((values, rest))
    }
}
