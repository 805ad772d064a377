//! What a job begins with, and the replies that it gets.

ghost use Rattle.std.specs.Prelude.{◌≡◌, ◌<◌, ◌≤◌, ◌↔◌, Some, IsTrue, IfOk, vec_len, vec_capacity};
ghost use Rattle.serde_json.specs.Data.{depth};
ghost use Rattle.serde_json.specs.Read.{read};
ghost use Rattle.serde_json.specs.View.{view};
ghost use Rattle.hog_json.specs.Nulled.{nulled, nulled_text};

use hog_json::nulled_text;
use hog_value::text::HogText;
use serde_json::Value;
use std::alloc::{AllocError, Global};
use std::marker::Model;

/// The reply to a fetch: a status, and the JSON text of the body.
#[derive(Drop)]
pub struct Reply {
    pub status: u16,
    pub body: HogText,
}

/// Replies in order. Contracts see the list.
#[derive(Drop)]
pub struct Replies {
    items: Vec<Reply>,
}

impl Model for Replies {
    ghost use Rattle.std.specs.Prelude.{List};
    ghost use Rattle.cyclotron_jobs.specs.declared.input.Reply.{Reply};

    ghost Value = { List Reply };

    ghost view = { λ r. r.items.items };
}

/// Where the replies to a job's fetches come from.
#[derive(Drop)]
pub enum Answers {
    /// From outside: each may be any.
    Free,
    /// From this list, in order.
    Listed(Replies),
}

/// What a job begins with: the Hog source, the JSON text of its globals, and where its replies come from.
#[derive(Drop)]
pub struct JobInput {
    pub source: HogText,
    pub globals: HogText,
    pub answers: Answers,
}

impl Reply {
    /// The reply with this body: its compact JSON text, with null for each number that isn't a whole number
    /// of 64 bits. The text reads as JSON. The body is nested at most 127 deep.
    pub fn new(alloc: Global, status: u16, body: &Value) -> Result<Reply, AllocError>
        requires { depth (view body.now) ≤ 127 }
        ensures status { IfOk result (λ r. r.status ≡ status) }
        ensures body { IfOk result (λ r. r.body ≡ nulled_text (view body.now)) }
        ensures reads { IfOk result (λ r. read r.body ≡ Some (nulled (view body.now))) }
    {
        let kept = nulled_text(alloc, body)?;
        Ok(Reply {
            status,
            body: kept.text,
        })
    }

    pub fn copy(&self) -> Result<Reply, AllocError>
        ensures { IfOk result (λ r. r ≡ self.now) }
    {
        Ok(Reply {
            status: self.status,
            body: self.body.copy()?,
        })
    }

    /// Takes no memory.
    pub fn is_same(&self, other: &Reply) -> bool
        ensures { IsTrue result ↔ (self.now ≡ other.now) }
    {
        self.status == other.status && self.body == other.body
    }
}

impl Replies {
    /// Takes no memory.
    pub fn new(items: Vec<Reply>) -> Replies
        ensures { result ≡ items.items }
    {
        Replies { items }
    }

    /// Takes no memory.
    pub fn items(&self) -> &[Reply]
        ensures { result.now ≡ self.now }
    {
        self.items.as_slice()
    }

    /// Takes no memory.
    pub fn into_items(self) -> Vec<Reply>
        ensures { result.items ≡ self }
    {
        self.items
    }

    pub fn copy(&self) -> Result<Replies, AllocError>
        ensures { IfOk result (λ r. r ≡ self.now) }
    {
        Ok(Replies {
            items: copies_of(*self.items.allocator(), self.items.as_slice())?,
        })
    }

    /// A copy with room for one more reply, so that adding it takes no memory.
    pub fn with_room(&self) -> Result<Vec<Reply>, AllocError>
        ensures items { IfOk result (λ v. v.items ≡ self.now) }
        ensures room { IfOk result (λ v. vec_len v < vec_capacity v) }
    {
        let mut copies = copies_of(*self.items.allocator(), self.items.as_slice())?;
        copies.reserve(1)?;
        Ok(copies)
    }

    /// Takes no memory.
    pub fn is_same(&self, other: &Replies) -> bool
        ensures { IsTrue result ↔ (self.now ≡ other.now) }
    {
        are_same(self.items.as_slice(), other.items.as_slice())
    }
}

fn copies_of(alloc: Global, replies: &[Reply]) -> Result<Vec<Reply>, AllocError>
    ensures { IfOk result (λ v. v.items ≡ replies.now) }
{
    let mut copies = Vec::new(alloc);
    for reply in replies {
        copies.push(reply.copy()?)?;
    }
    Ok(copies)
}

fn are_same(a: &[Reply], b: &[Reply]) -> bool
    ensures { IsTrue result ↔ (a.now ≡ b.now) }
{
    if a.len() != b.len() {
        return false;
    }
    for i in 0..a.len() {
        if !a[i].is_same(&b[i]) {
            return false;
        }
    }
    true
}

impl Answers {
    pub fn copy(&self) -> Result<Answers, AllocError>
        ensures { IfOk result (λ a. a ≡ self.now) }
    {
        match self {
            Answers::Free => Ok(Answers::Free),
            Answers::Listed(replies) => Ok(Answers::Listed(replies.copy()?)),
        }
    }

    /// Takes no memory.
    pub fn is_same(&self, other: &Answers) -> bool
        ensures { IsTrue result ↔ (self.now ≡ other.now) }
    {
        match (self, other) {
            (Answers::Free, Answers::Free) => true,
            (Answers::Listed(a), Answers::Listed(b)) => a.is_same(b),
            (Answers::Free, Answers::Listed(_)) => false,
            (Answers::Listed(_), Answers::Free) => false,
        }
    }
}

impl JobInput {
    pub fn copy(&self) -> Result<JobInput, AllocError>
        ensures { IfOk result (λ i. i ≡ self.now) }
    {
        Ok(JobInput {
            source: self.source.copy()?,
            globals: self.globals.copy()?,
            answers: self.answers.copy()?,
        })
    }

    /// Takes no memory.
    pub fn is_same(&self, other: &JobInput) -> bool
        ensures { IsTrue result ↔ (self.now ≡ other.now) }
    {
        self.source == other.source
            && self.globals == other.globals
            && self.answers.is_same(&other.answers)
    }
}
