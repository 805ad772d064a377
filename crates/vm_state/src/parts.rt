//! A state as it is read: lists as they are written.

use hog_value::{Cell, End, TraceItem, Value};
use vm_frames::{Frame, ThrowFrame, Upvalue};

/// The format of a saved state. States are saved in the second; the first is older, and is still read.
#[derive(Clone, Copy, Debug, PartialEq, Eq)]
pub enum Format {
    First,
    Second,
}

/// How many operations were done, the turns and units that were spent, and how many replies were taken in.
#[derive(Clone, Copy)]
pub struct Counts {
    pub ops: u64,
    pub turns: u32,
    pub units: u32,
    pub used: u64,
}

/// The stack from the bottom, the calls with the program's first, and the throw frames as they came.
#[derive(Drop)]
pub struct Calls {
    pub stack: Vec<Value>,
    pub frames: Vec<Frame>,
    pub throws: Vec<ThrowFrame>,
}

/// The upvalues by number, the cells by number, and what was shown.
#[derive(Drop)]
pub struct Held {
    pub upvalues: Vec<Upvalue>,
    pub cells: Vec<Cell>,
    pub trace: Vec<TraceItem>,
}

/// A state: it has ended where it has an end, and else it may wait.
#[derive(Drop)]
pub struct Parts {
    pub counts: Counts,
    pub globals: Option<u32>,
    pub waiting: bool,
    pub end: Option<End>,
    pub calls: Calls,
    pub held: Held,
}

/// What was read of a text: its format, the number of requests that it says, and the state.
#[derive(Drop)]
pub struct Written {
    pub format: Format,
    pub asked: u64,
    pub parts: Parts,
}
