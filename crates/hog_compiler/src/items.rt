//! The loop over items.
#![tactic(auto, using(hog_ops::proofs::Join::join_assoc, hog_ops::proofs::Join::join_none))]

ghost use Rattle.std.specs.Prelude.{◌≡◌, ◌+◌, false, IfOk, OnOk};
ghost use Rattle.hog_tree.specs.View.{option_word_of, stms_from};
ghost use Rattle.hog_captures.specs.Frees.{stms_frees};
ghost use Rattle.hog_compiler.specs.AddsCode.{AddsCode};
ghost use Rattle.hog_compiler.specs.Pieces.{key_count, called_on, keys_code, hidden_code, more_code, item_code, key_code, next_code, pops, for_in_code};

use crate::draft::Draft;
use crate::pops::{key_pop, word_pop};
use hog_ops::Op;
use hog_tree::tree::{Named, Stmts};
use hog_value::Native;
use std::alloc::AllocError;

/// How many hidden locals there are for the keys.
pub fn key_count(key: &Option<Named>) -> u32
    ensures { result ≡ key_count (option_word_of key.now) }
{
    match key {
        Some(_) => 1,
        None => 0,
    }
}

// The local so far above another.
fn above(local: u32, more: u32) -> Result<u32, AllocError>
    ensures { IfOk result (λ n. n ≡ local + more) }
{
    match local.checked_add(more) {
        Some(sum) => Ok(sum),
        None => Err(AllocError),
    }
}

impl Draft {
    // A native called on a local.
    fn call_on(&mut self, native: Native, local: u32) -> Result<(), AllocError>
        ensures { OnOk result (AddsCode self.old self.new (called_on native local)) }
    {
        self.push(Op::GetLocal(local))?;
        self.push(Op::CallGlobal(native, 1))
    }

    // The keys of a local, where they are named.
    fn keys(&mut self, key: &Option<Named>, local: u32) -> Result<(), AllocError>
        ensures { OnOk result (AddsCode self.old self.new (keys_code (option_word_of key.now) local)) }
    {
        match key {
            Some(_) => self.call_on(Native::Keys, local),
            None => Ok(()),
        }
    }

    // The hidden locals behind the first.
    fn hidden(&mut self, key: &Option<Named>, first: u32, values: u32) -> Result<(), AllocError>
        requires { values ≡ first + key_count (option_word_of key.now) + 1 }
        ensures { OnOk result (AddsCode self.old self.new (hidden_code (option_word_of key.now) first)) }
    {
        self.keys(key, first)?;
        self.call_on(Native::Values, first)?;
        self.call_on(Native::Length, values)?;
        self.push(Op::Integer(1))
    }

    // Whether the index is at most the count.
    fn more(&mut self, count: u32, index: u32) -> Result<(), AllocError>
        ensures { OnOk result (AddsCode self.old self.new (more_code count index)) }
    {
        self.push(Op::GetLocal(count))?;
        self.push(Op::GetLocal(index))?;
        self.push(Op::LtEq)
    }

    // The item of a list at the index.
    fn item(&mut self, list: u32, index: u32) -> Result<(), AllocError>
        ensures { OnOk result (AddsCode self.old self.new (item_code list index)) }
    {
        self.push(Op::GetLocal(list))?;
        self.push(Op::GetLocal(index))?;
        self.push(Op::GetProperty)
    }

    // The key at the index, where it is named.
    fn key(&mut self, key: &Option<Named>, list: u32, index: u32) -> Result<(), AllocError>
        ensures { OnOk result (AddsCode self.old self.new (key_code (option_word_of key.now) list index)) }
    {
        match key {
            Some(_) => self.item(list, index),
            None => Ok(()),
        }
    }

    // The index, one more.
    fn next(&mut self, index: u32) -> Result<(), AllocError>
        ensures { OnOk result (AddsCode self.old self.new (next_code index)) }
    {
        self.push(Op::Integer(1))?;
        self.push(Op::GetLocal(index))?;
        self.push(Op::Plus)?;
        self.push(Op::SetLocal(index))
    }

    // The hidden locals that are always there come off.
    fn four_pops(&mut self) -> Result<(), AllocError>
        ensures { OnOk result (AddsCode self.old self.new (pops 4)) }
    {
        self.push(Op::Pop)?;
        self.push(Op::Pop)?;
        self.push(Op::Pop)?;
        self.push(Op::Pop)
    }

    // The hidden locals come off.
    fn hidden_pops(&mut self, key: &Option<Named>) -> Result<(), AllocError>
        ensures { OnOk result (AddsCode self.old self.new (pops (4 + key_count (option_word_of key.now)))) }
    {
        match key {
            Some(_) => {
                self.push(Op::Pop)?;
                self.four_pops()
            }
            None => self.four_pops(),
        }
    }

    /// All of a `for .. in` behind what is run over; `turn` is its block, and `body` where that stands in the tree.
    pub fn for_in(
        &mut self,
        key: &Option<Named>,
        name: &Named,
        first: u32,
        turn: Draft,
        body: &Stmts,
    ) -> Result<(), AllocError>
        ensures { OnOk result (AddsCode self.old self.new
            (for_in_code (option_word_of key.now) name.now.word first turn (stms_frees false (stms_from body.now.list.items)))) }
    {
        let keys = above(first, key_count(key))?;
        let values = above(keys, 1)?;
        let count = above(keys, 2)?;
        let index = above(keys, 3)?;
        let mut test = Draft::new(self.allocator());
        test.more(count, index)?;
        let mut whole = Draft::new(self.allocator());
        whole.key(key, keys, index)?;
        whole.item(values, index)?;
        whole.append(turn)?;
        word_pop(&mut whole, name, body)?;
        key_pop(&mut whole, key, body)?;
        whole.next(index)?;
        self.hidden(key, first, values)?;
        self.repeat(test, whole)?;
        self.hidden_pops(key)
    }
}
