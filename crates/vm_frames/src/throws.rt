//! Where throws land.

ghost use Rattle.std.specs.Prelude.{◌≡◌, [], ◌∷◌, reverse, OnOk, OnErr};
ghost use Rattle.vm_course.specs.Stack.{height_of};
ghost use Rattle.vm_frames.specs.Parts.{first_of, others_of};
ghost use Rattle.vm_course.specs.Step.{throws_around, without_try};

use std::alloc::{AllocError, Global};
use std::marker::Model;

/// Where a throw lands.
#[derive(Clone, Copy)]
pub struct ThrowFrame {
    /// How many frames are left then, that of the catch among them.
    pub frames: u32,
    /// How many values of the stack are left then.
    pub height: u32,
    /// The place in the code that goes on.
    pub catch: u32,
}

impl Model for ThrowFrame {
    ghost use Rattle.vm_course.specs.State.{ThrowFrame};

    ghost Value = { ThrowFrame };

    ghost view = { λ t. record { frames = t.frames; height = t.height; catch = t.catch } };

    ghost inverse = { λ t. record { frames = t.frames; height = t.height; catch = t.catch } };
}

/// Throw frames. Contracts see the list of them, with the last first.
#[derive(Drop)]
pub struct Throws {
    list: Vec<ThrowFrame>,
}

impl Model for Throws {
    ghost use Rattle.std.specs.Prelude.{List, reverse};
    ghost use Rattle.vm_course.specs.State.{ThrowFrame};

    ghost Value = { List ThrowFrame };

    ghost view = { λ t. reverse t.list.items };
}

impl Throws {
    /// No throw frames. Takes no memory.
    pub fn new(alloc: Global) -> Throws
        ensures { result ≡ [] }
    {
        Throws {
            list: Vec::new(alloc),
        }
    }

    /// These throw frames, as they came. Takes no memory.
    pub fn from_list(list: Vec<ThrowFrame>) -> Throws
        ensures { result ≡ reverse list.items }
    {
        Throws { list }
    }

    /// The throw frames, as they came. Takes no memory.
    pub fn list(&self) -> &[ThrowFrame]
        ensures { self.now ≡ reverse result.now }
    {
        self.list.as_slice()
    }

    /// The height below which a frame with this number has no operands by its last throw frame. Takes no memory.
    pub fn height(&self, frames: u32) -> u32
        ensures { result ≡ height_of frames self.now }
    {
        match self.list.last() {
            Some(t) if t.frames == frames => t.height,
            _ => 0,
        }
    }

    /// The last throw frame. Takes no memory.
    pub fn last(&self) -> Option<ThrowFrame>
        ensures { result ≡ first_of self.now }
    {
        self.list.last().copied()
    }

    /// Adds a throw frame.
    pub fn push(&mut self, t: ThrowFrame) -> Result<(), AllocError>
        ensures ok { OnOk result (self.new ≡ t ∷ self.old) }
        ensures err { OnErr result (self.new ≡ self.old) }
    {
        self.list.push(t)?;
        Ok(())
    }

    /// Takes all throw frames away. Takes no memory.
    pub fn clear(&mut self)
        ensures { self.new ≡ [] }
    {
        self.list.clear();
    }

    /// Takes the last throw frame away. Takes no memory.
    pub fn pop(&mut self) -> Option<ThrowFrame>
        ensures last { result ≡ first_of self.old }
        ensures rest { self.new ≡ others_of self.old }
    {
        self.list.pop()
    }

    /// Takes the last throw frame away where it belongs to the frame with this number. Takes no memory.
    pub fn pop_of(&mut self, frames: u32)
        ensures { self.new ≡ without_try frames self.old }
    {
        if let Some(t) = self.list.last()
            && t.frames == frames
        {
            self.list.pop();
        }
    }

    /// Keeps the throw frames of the frames below one with this number. Takes no memory.
    pub fn keep_around(&mut self, frames: u32)
        ensures { self.new ≡ throws_around frames self.old }
    {
        while let Some(t) = self.list.last()
            && t.frames >= frames
        {
            self.list.pop();
        }
    }
}
