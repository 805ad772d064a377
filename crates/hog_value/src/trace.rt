//! What a run shows.

ghost use Rattle.std.specs.Prelude.{◌≡◌, ◌++◌, ◌∷◌, [], IfOk, OnOk, OnErr};

use crate::text::HogText;
use std::alloc::AllocError;
use std::marker::Model;

/// A fetch that a run asks for: the URL, and the JSON text of the options.
#[derive(Drop)]
pub struct Request {
    pub url: HogText,
    pub options: HogText,
}

/// One thing that a run shows, in the order in which it comes.
#[derive(Drop)]
pub enum TraceItem {
    Printed(HogText),
    Asked(Request),
}

/// How a run ends: with the shown text of its result or of the value that nobody caught,
/// or because a meter is spent.
#[derive(Drop)]
pub enum End {
    Done(HogText),
    Threw(HogText),
    TurnsSpent,
    MemorySpent,
    TooDeep,
    TooManyFetches,
}

/// The items that a run has shown, in order. Contracts see the list.
#[derive(Drop)]
pub struct Trace {
    items: Vec<TraceItem>,
}

impl Model for Trace {
    ghost use Rattle.std.specs.Prelude.{List};
    ghost use Rattle.hog_value.specs.declared.trace.TraceItem.{TraceItem};

    ghost Value = { List TraceItem };

    ghost view = { λ t. t.items.items };
}

impl Trace {
    /// Takes no memory.
    pub fn new(items: Vec<TraceItem>) -> Trace
        ensures { result ≡ items.items }
    {
        Trace { items }
    }

    /// Takes no memory.
    pub fn items(&self) -> &[TraceItem]
        ensures { result.now ≡ self.now }
    {
        self.items.as_slice()
    }

    /// Adds an item at the end.
    pub fn push(&mut self, item: TraceItem) -> Result<(), AllocError>
        ensures ok { OnOk result (self.new ≡ self.old ++ item ∷ []) }
        ensures err { OnErr result (self.new ≡ self.old) }
    {
        self.items.push(item)?;
        Ok(())
    }
}

/// The trace of a run so far, and its end where it has ended.
#[derive(Drop)]
pub struct Shown {
    pub trace: Trace,
    pub end: Option<End>,
}

impl Request {
    pub fn copy(&self) -> Result<Request, AllocError>
        ensures { IfOk result (λ r. r ≡ self.now) }
    {
        Ok(Request {
            url: self.url.copy()?,
            options: self.options.copy()?,
        })
    }
}

impl TraceItem {
    pub fn copy(&self) -> Result<TraceItem, AllocError>
        ensures { IfOk result (λ t. t ≡ self.now) }
    {
        match self {
            TraceItem::Printed(text) => Ok(TraceItem::Printed(text.copy()?)),
            TraceItem::Asked(request) => Ok(TraceItem::Asked(request.copy()?)),
        }
    }
}

impl End {
    pub fn copy(&self) -> Result<End, AllocError>
        ensures { IfOk result (λ e. e ≡ self.now) }
    {
        match self {
            End::Done(text) => Ok(End::Done(text.copy()?)),
            End::Threw(text) => Ok(End::Threw(text.copy()?)),
            End::TurnsSpent => Ok(End::TurnsSpent),
            End::MemorySpent => Ok(End::MemorySpent),
            End::TooDeep => Ok(End::TooDeep),
            End::TooManyFetches => Ok(End::TooManyFetches),
        }
    }
}

impl Trace {
    pub fn copy(&self) -> Result<Trace, AllocError>
        ensures { IfOk result (λ t. t ≡ self.now) }
    {
        let mut items = Vec::new(*self.items.allocator());
        for item in &self.items {
            items.push(item.copy()?)?;
        }
        Ok(Trace { items })
    }
}

impl Shown {
    pub fn copy(&self) -> Result<Shown, AllocError>
        ensures { IfOk result (λ s. s ≡ self.now) }
    {
        let end = match &self.end {
            Some(end) => Some(end.copy()?),
            None => None,
        };
        Ok(Shown {
            trace: self.trace.copy()?,
            end,
        })
    }
}
