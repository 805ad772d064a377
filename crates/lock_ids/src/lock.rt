//! Ids of leases.

use hog_value::text::{HogText, TextStop};
use std::alloc::{AllocError, Global};
use uuid::Uuid;

/// The id of a lease: the job that is leased, and the draw, which no other lease of its queue has.
#[derive(Clone, Copy, Debug, PartialEq, Eq)]
pub struct LockId {
    pub job: u32,
    pub draw: u64,
}

/// Why a text is not read as an id.
#[derive(Clone, Copy, Debug, PartialEq, Eq)]
pub enum LockStop {
    /// `uuid` reads nothing from it, or its upper 64 bits are 2^32 or more.
    NotAnId,
    OutOfMemory,
}

impl LockId {
    ghost use Rattle.std.specs.Prelude.{◌≡◌, ◌↔◌, ◌<◌, ◌^◌, Some, IfOk};
    ghost use Rattle.lock_ids.specs.Lock.{bits_of, id_text, read_bits, IsNoId};

    /// Takes no memory.
    pub fn of(job: u32, draw: u64) -> LockId
        ensures { result ≡ record { job = job; draw = draw } }
    {
        LockId { job, draw }
    }

    /// Takes no memory.
    pub fn job(&self) -> u32
        ensures { result ≡ self.now.job }
    {
        self.job
    }

    /// Takes no memory.
    pub fn draw(&self) -> u64
        ensures { result ≡ self.now.draw }
    {
        self.draw
    }

    /// The hyphenated form in lower case of its 128 bits: the job in the upper 64, the draw in the lower.
    pub fn text(&self, alloc: Global) -> Result<HogText, AllocError>
        ensures text { IfOk result (λ t. t ≡ id_text self.now) }
        ensures reads_back { IfOk result (λ t. read_bits t ≡ Some (bits_of self.now)) }
    {
        let LockId { job, draw } = *self;
        let id = Uuid::from_u64_pair(job as u64, draw);
        let mut buffer = Uuid::encode_buffer();
        let text = id.hyphenated().encode_lower(&mut buffer);
        match HogText::from_bytes(alloc, text.as_bytes()) {
            Ok(text) => Ok(text),
            Err(TextStop::OutOfMemory) => Err(AllocError),
            Err(TextStop::NotUtf8 { at: _ }) => unreachable!(),
        }
    }

    /// The id that a text is, in any form that `uuid` reads. It needs no memory today.
    pub fn read(_alloc: Global, text: &HogText) -> Result<LockId, LockStop>
        ensures ok { IfOk result (λ id. read_bits text.now ≡ Some (bits_of id)) }
        ensures not_an_id { (result ≡ Err LockStop.NotAnId) ↔ IsNoId text.now }

        // The text of an id gives that id.
        ensures reads_back { (id : LockId) → id.job < 2 ^ 32 → id.draw < 2 ^ 64
            → text.now ≡ id_text id → result ≡ Ok id }
    {
        let Ok(text) = std::str::from_utf8(text.bytes()) else {
            unreachable!()
        };
        let Ok(id) = Uuid::parse_str(text) else {
            return Err(LockStop::NotAnId);
        };
        let (high, low) = id.as_u64_pair();
        let Ok(job) = u32::try_from(high) else {
            return Err(LockStop::NotAnId);
        };
        Ok(LockId { job, draw: low })
    }
}
