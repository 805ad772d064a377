//! Lists of values, numbers, texts and bytes. Contracts see the list.

ghost use Rattle.std.specs.Prelude.{◌≡◌, ◌<◌, ◌++◌, ◌∷◌, [], length, slice_set, IfOk, OnOk, OnErr};

use crate::text::HogText;
use crate::value::Value;
use std::alloc::AllocError;
use std::marker::Model;

/// Values in order.
#[derive(Drop)]
pub struct Items {
    items: Vec<Value>,
}

impl Model for Items {
    ghost use Rattle.std.specs.Prelude.{List};
    ghost use Rattle.hog_value.specs.declared.value.Value.{Value as Val};

    ghost Value = { List Val };

    ghost view = { λ v. v.items.items };
}

impl Items {
    /// Takes no memory.
    pub fn new(v: Vec<Value>) -> Items
        ensures { result ≡ v.items }
    {
        Items { items: v }
    }

    /// Takes no memory.
    pub fn items(&self) -> &[Value]
        ensures { result.now ≡ self.now }
    {
        self.items.as_slice()
    }

    /// Replaces the item at a place, counted from 0. Takes no memory.
    pub(crate) fn set(&mut self, place: usize, v: Value)
        requires { place < length self.old }
        ensures { self.new ≡ slice_set self.old place v }
    {
        self.items[place] = v;
    }

    /// Adds an item at the end.
    pub(crate) fn push(&mut self, v: Value) -> Result<(), AllocError>
        ensures ok { OnOk result (self.new ≡ self.old ++ v ∷ []) }
        ensures err { OnErr result (self.new ≡ self.old) }
    {
        self.items.push(v)?;
        Ok(())
    }
}

/// Numbers in order.
#[derive(Drop)]
pub struct Numbers {
    items: Vec<u32>,
}

impl Model for Numbers {
    ghost use Rattle.std.specs.Prelude.{List, ℕ};

    ghost Value = { List ℕ };

    ghost view = { λ v. v.items.items };
}

impl Numbers {
    /// Takes no memory.
    pub fn new(v: Vec<u32>) -> Numbers
        ensures { result ≡ v.items }
    {
        Numbers { items: v }
    }

    /// Takes no memory.
    pub fn items(&self) -> &[u32]
        ensures { result.now ≡ self.now }
    {
        self.items.as_slice()
    }
}

/// Texts in order.
#[derive(Drop)]
pub struct Texts {
    items: Vec<HogText>,
}

impl Model for Texts {
    ghost use Rattle.std.specs.Prelude.{List, ℕ};

    ghost Value = { List (List ℕ) };

    ghost view = { λ v. v.items.items };
}

impl Texts {
    /// Takes no memory.
    pub fn new(v: Vec<HogText>) -> Texts
        ensures { result ≡ v.items }
    {
        Texts { items: v }
    }

    /// Takes no memory.
    pub fn items(&self) -> &[HogText]
        ensures { result.now ≡ self.now }
    {
        self.items.as_slice()
    }
}

/// Bytes in order.
#[derive(Drop)]
pub struct Bytes {
    items: Vec<u8>,
}

impl Model for Bytes {
    ghost use Rattle.std.specs.Prelude.{List, ℕ};

    ghost Value = { List ℕ };

    ghost view = { λ v. v.items.items };
}

impl Bytes {
    /// Takes no memory.
    pub fn new(v: Vec<u8>) -> Bytes
        ensures { result ≡ v.items }
    {
        Bytes { items: v }
    }

    /// Takes no memory.
    pub fn items(&self) -> &[u8]
        ensures { result.now ≡ self.now }
    {
        self.items.as_slice()
    }

    pub fn copy(&self) -> Result<Bytes, AllocError>
        ensures { IfOk result (λ b. b ≡ self.now) }
    {
        Ok(Bytes {
            items: self.items.clone()?,
        })
    }
}
