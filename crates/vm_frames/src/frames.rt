//! The calls that a machine is in.

ghost use Rattle.std.specs.Prelude.{◌≡◌, ◌≤◌, ◌<◌, [], ◌∷◌, length, reverse, OnOk, OnErr};
ghost use Rattle.vm_course.specs.Stack.{keep};
ghost use Rattle.vm_frames.specs.Parts.{first_of, others_of};

use std::alloc::{AllocError, Global};
use std::marker::Model;

/// A call.
#[derive(Clone, Copy)]
pub struct Frame {
    /// The place of its next operation in the code.
    pub place: u32,
    /// Where its locals begin on the stack, counted from the bottom.
    pub base: u32,
    /// The cell of its function; the program has none.
    pub function: Option<u32>,
}

impl Model for Frame {
    ghost use Rattle.vm_course.specs.State.{Frame};

    ghost Value = { Frame };

    ghost view = { λ f. record { place = f.place; base = f.base; function = f.function } };

    ghost inverse = { λ f. record { place = f.place; base = f.base; function = f.function } };
}

/// Calls, at most 256. Contracts see the list of them, with the innermost first.
#[derive(Drop)]
pub struct Frames {
    list: Vec<Frame>,
}

impl Model for Frames {
    ghost use Rattle.std.specs.Prelude.{List, ◌≤◌, length, reverse};
    ghost use Rattle.vm_course.specs.State.{Frame};

    ghost Value = { List Frame };

    ghost view = { λ f. reverse f.list.items };

    ghost invariant = { λ f. length f.list.items ≤ 256 };
}

impl Frames {
    /// No calls. Takes no memory.
    pub fn new(alloc: Global) -> Frames
        ensures { result ≡ [] }
    {
        Frames {
            list: Vec::new(alloc),
        }
    }

    /// These calls, of which the innermost is the last. Takes no memory.
    pub fn from_list(list: Vec<Frame>) -> Frames
        requires { length list.items ≤ 256 }
        ensures { result ≡ reverse list.items }
    {
        Frames { list }
    }

    /// The calls, the innermost last. Takes no memory.
    pub fn list(&self) -> &[Frame]
        ensures { self.now ≡ reverse result.now }
    {
        self.list.as_slice()
    }

    /// How many calls there are. Takes no memory.
    pub fn len(&self) -> u32
        ensures count { result ≡ length self.now }
        ensures few { result ≤ 256 }
    {
        self.list.len() as u32
    }

    /// Adds a call.
    pub fn push(&mut self, frame: Frame) -> Result<(), AllocError>
        requires { length self.old < 256 }
        ensures ok { OnOk result (self.new ≡ frame ∷ self.old) }
        ensures err { OnErr result (self.new ≡ self.old) }
    {
        self.list.push(frame)?;
        Ok(())
    }

    /// Takes the innermost call away. Takes no memory.
    pub fn pop(&mut self) -> Option<Frame>
        ensures last { result ≡ first_of self.old }
        ensures rest { self.new ≡ others_of self.old }
    {
        self.list.pop()
    }

    /// Keeps the outermost calls. Takes no memory.
    pub fn keep(&mut self, count: u32)
        ensures { self.new ≡ keep count self.old }
    {
        self.list.truncate(count as usize);
    }
}
