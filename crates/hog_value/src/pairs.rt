//! Dictionaries: pairs of a text and a value, with distinct texts, in the order of insertion.

use crate::text::HogText;
use crate::value::Value;
use indexmap::IndexMap;
use std::alloc::AllocError;
use std::marker::Model;

/// Pairs with distinct keys. Contracts see the list of pairs, in the order in which the keys came.
#[derive(Drop)]
pub struct Pairs {
    map: IndexMap<HogText, Value>,
}

impl Model for Pairs {
    ghost use Rattle.std.specs.Prelude.{List, ℕ, bytes_eq};
    ghost use Rattle.std.specs.List.{IsDistinct};
    ghost use Rattle.std.specs.Map.{keys_of};
    ghost use Rattle.hog_value.specs.declared.value.Value.{Value as Val};

    ghost Value = { List (List ℕ × Val) };

    ghost view = { λ p. p.map.entries };

    ghost invariant = { λ p. IsDistinct bytes_eq (keys_of p.map.entries) };
}

impl Pairs {
    ghost use Rattle.std.specs.Prelude.{◌≡◌, ◌<◌, ℕ, min, length, position, IfSome, OnOk, OnErr, sum_by, bytes_eq, is_some};
    ghost use Rattle.std.specs.List.{IsDistinct};
    ghost use Rattle.std.specs.Map.{keys_of, lookup};
    ghost use Rattle.indexmap.specs.IndexMap.{insert_entry, set_value_at};
    ghost use Rattle.hog_value.specs.Cells.{cost_of_pair};

    /// Takes no memory.
    pub fn new(map: IndexMap<HogText, Value>) -> Pairs
        ensures pairs { result ≡ map.entries }
        ensures distinct { IsDistinct bytes_eq (keys_of result) }
    {
        // Every call on a map tells that its keys are distinct, which a `Pairs` keeps.
        let _pairs = map.len();
        Pairs { map }
    }

    /// Takes no memory.
    pub fn map(&self) -> &IndexMap<HogText, Value>
        ensures pairs { result.now.entries ≡ self.now }
        ensures distinct { IsDistinct bytes_eq (keys_of self.now) }
    {
        &self.map
    }

    /// The value at a key that is at hand as bytes. It walks over the pairs. Takes no memory.
    pub(crate) fn at_bytes(&self, key: &[u8]) -> Option<Value>
        ensures { result ≡ lookup (bytes_eq key.now) self.now }
    {
        for i in 0..self.map.len() {
            let Some((k, v)) = self.map.get_index(i) else {
                unreachable!()
            };
            if key == k.bytes() {
                return Some(*v);
            }
        }
        None
    }

    /// The place of a key, from 0. Takes no memory.
    pub(crate) fn place(&self, key: &HogText) -> Option<usize>
        ensures place { result ≡ position (bytes_eq key.now) (keys_of self.now) }
        ensures there { is_some result ≡ is_some (lookup (bytes_eq key.now) self.now) }
        ensures within { IfSome result (λ place. place < length self.now) }
    {
        self.map.get_index_of(key)
    }

    /// Sets the value at a place, whose key stays. Takes no memory.
    pub(crate) fn set_at(&mut self, place: usize, v: Value)
        requires { place < length self.old }
        ensures value { self.new ≡ set_value_at self.old place v }
        ensures distinct { IsDistinct bytes_eq (keys_of self.new) }
    {
        let Some(value) = self.map.get_index_mut(place) else {
            unreachable!()
        };
        *value = v;
    }

    /// Sets a key: one that is there keeps its place, and a new one goes last.
    pub(crate) fn insert(&mut self, key: HogText, v: Value) -> Result<(), AllocError>
        ensures ok { OnOk result (self.new ≡ insert_entry bytes_eq self.old key v) }
        ensures err { OnErr result (self.new ≡ self.old) }
        ensures distinct { IsDistinct bytes_eq (keys_of self.new) }
    {
        self.map.insert(key, v)?;
        Ok(())
    }

    /// The units that the pairs cost, or `u64::MAX` where they are more. Takes no memory.
    pub(crate) fn cost(&self) -> u64
        ensures units { result ≡ min (sum_by (λ p. cost_of_pair p.0) self.now) u64.MAX }
        ensures distinct { IsDistinct bytes_eq (keys_of self.now) }
    {
        let mut cost: u64 = 0;
        for i in 0..self.map.len() {
            let Some((key, _)) = self.map.get_index(i) else {
                unreachable!()
            };
            cost = cost
                .saturating_add(16)
                .saturating_add(key.bytes().len() as u64);
        }
        cost
    }
}
