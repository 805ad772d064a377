//! Globals and their properties.

ghost use Rattle.std.specs.Prelude.{◌≡◌, ◌<◌, length, All, IfOk, OnOk, Ok};
ghost use Rattle.hog_value.specs.Values.{NamesBelow};
ghost use Rattle.hog_json.specs.Texts.{named_text};
ghost use Rattle.hog_meaning.specs.World.{Fixed};
ghost use Rattle.hog_meaning.specs.Operators.{accessed};
ghost use Rattle.vm_course.specs.Step.{global_of, property_path};
ghost use Rattle.vm_operations.specs.Here.{ReadsGlobal};

use crate::state::State;
use hog_operators::access;
use hog_value::{Kind, Value};
use std::alloc::{AllocError, Global};

impl State {
    /// The global of a name, which is null where there is none. Takes no memory.
    #[tactic(auto, unfolding(hog_meaning::specs::Operators::accessed))]
    fn global(&self, globals: u32, name: Value) -> Result<Value, Kind>
        requires globals { globals < length self.now.heap }
        requires name { NamesBelow (length self.now.heap) name }
        ensures value { (fixed : Fixed) → fixed.globals ≡ globals → result ≡ global_of fixed self.now (named_text self.now.heap name) }
        ensures names { IfOk result (NamesBelow (length self.now.heap)) }
    {
        match name {
            Value::Ref(_) => access(&self.heap, Value::Ref(globals), name),
            _ => Err(Kind::TypeError),
        }
    }

    /// A value, and then its properties by these keys in order. Takes no memory.
    #[tactic(auto, using(crate::proofs::Paths::path_more, crate::proofs::Paths::path_stops, crate::proofs::Paths::path_done))]
    fn property_path(&self, first: Value, keys: &[Value]) -> Result<Value, Kind>
        requires first { NamesBelow (length self.now.heap) first }
        requires keys { All (NamesBelow (length self.now.heap)) keys.now }
        ensures value { result ≡ property_path (Ok first) keys.now self.now }
        ensures names { IfOk result (NamesBelow (length self.now.heap)) }
    {
        let mut v = first;
        for key in keys {
            v = self.property(v, *key)?;
        }
        Ok(v)
    }

    /// What a base has under a key. Takes no memory.
    fn property(&self, base: Value, key: Value) -> Result<Value, Kind>
        requires base { NamesBelow (length self.now.heap) base }
        requires key { NamesBelow (length self.now.heap) key }
        ensures value { result ≡ accessed self.now.heap base key }
        ensures names { IfOk result (NamesBelow (length self.now.heap)) }
    {
        access(&self.heap, base, key)
    }

    /// The global of a name, and then its properties by these keys in order. Takes no memory.
    fn global_path(&self, globals: u32, name: Value, keys: &[Value]) -> Result<Value, Kind>
        requires globals { globals < length self.now.heap }
        requires name { NamesBelow (length self.now.heap) name }
        requires keys { All (NamesBelow (length self.now.heap)) keys.now }
        ensures value { (fixed : Fixed) → fixed.globals ≡ globals
            → result ≡ property_path (global_of fixed self.now (named_text self.now.heap name)) keys.now self.now }
        ensures names { IfOk result (NamesBelow (length self.now.heap)) }
    {
        match self.global(globals, name) {
            Ok(v) => self.property_path(v, keys),
            Err(kind) => Err(kind),
        }
    }

    /// GET_GLOBAL, where the cell of the globals has a number.
    #[inline(never)]
    pub(crate) fn get_global(
        &mut self,
        alloc: Global,
        behind: u32,
        globals: u32,
        n: u32,
    ) -> Result<(), AllocError>
        requires { globals < length self.old.heap }
        ensures { OnOk result (ReadsGlobal globals n behind self.old self.new) }
    {
        let (values, rest) = self.popped(alloc, u64::from(n))?;
        let names = values.as_slice();
        if names.is_empty() {
            return self.go_on_with(behind, rest, Value::Null);
        }
        let v = self.global_path(globals, names[0], &names[1..]);
        self.settle(alloc, behind, rest, v)
    }
}
