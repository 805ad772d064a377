//! Texts of UTF-8 bytes.

use std::alloc::{AllocError, Global};
use std::cmp::Ordering;
use std::convert::AsStr;
use std::hash::{Hash, Hasher};
use std::marker::Model;

/// A text. Contracts see the list of its bytes.
#[derive(Drop)]
pub struct HogText {
    text: String,
}

impl Model for HogText {
    ghost use Rattle.std.specs.Prelude.{List, ℕ, string_bytes};

    ghost Value = { List ℕ };

    ghost view = { λ t. string_bytes t.text };
}

/// Why bytes are no text.
#[derive(Clone, Copy, Debug, PartialEq, Eq)]
pub enum TextStop {
    /// The bytes aren't UTF-8; the longest prefix that is has `at` bytes.
    NotUtf8 { at: usize },
    OutOfMemory,
}

impl HogText {
    ghost use Rattle.std.specs.Prelude.{◌≡◌, ℕ, IfOk, string_bytes};
    ghost use Rattle.std.specs.Str.{IsUtf8, IsValidUpTo};

    /// A copy of the bytes, where they are UTF-8.
    pub fn from_bytes(alloc: Global, bytes: &[u8]) -> Result<HogText, TextStop>
        ensures value { IfOk result (λ t. t ≡ bytes.now) }
        ensures valid { IfOk result (λ _. IsUtf8 bytes.now) }
        ensures not_utf8 { (at : ℕ) → result ≡ Err (TextStop.NotUtf8 at) → ¬ (IsUtf8 bytes.now) }
        ensures longest { (at : ℕ) → result ≡ Err (TextStop.NotUtf8 at) → IsValidUpTo bytes.now at }
    {
        match std::str::from_utf8(bytes) {
            Ok(s) => match String::from_str(alloc, s) {
                Ok(text) => Ok(HogText { text }),
                Err(_) => Err(TextStop::OutOfMemory),
            },
            Err(e) => Err(TextStop::NotUtf8 {
                at: e.valid_up_to(),
            }),
        }
    }

    /// The text that a `String` holds. Takes no memory.
    pub fn from_string(text: String) -> HogText
        ensures { result ≡ string_bytes text }
    {
        HogText { text }
    }

    /// The bytes. Takes no memory.
    pub fn bytes(&self) -> &[u8]
        ensures value { result.now ≡ self.now }
        ensures utf8 { IsUtf8 self.now }
    {
        self.text.as_str().as_bytes()
    }

    pub fn copy(&self) -> Result<HogText, AllocError>
        ensures { IfOk result (λ t. t ≡ self.now) }
    {
        let text = self.text.clone()?;
        Ok(HogText { text })
    }
}

impl PartialEq for HogText {
    ghost use Rattle.std.specs.Str.{bytes_eq};
    ghost use Rattle.std.specs.Cmp.{partial_equiv_from_equiv};
    ghost use Rattle.std.specs.Cmp.Lexicographic.{nat_list_eq_equiv};

    ghost eq = { λ a b. bytes_eq a b };

    ghost laws = { partial_equiv_from_equiv nat_list_eq_equiv };

    fn eq(&self, other: &HogText) -> bool {
        self.text == other.text
    }
}

impl Eq for HogText {
    ghost use Rattle.std.specs.Cmp.Lexicographic.{nat_list_eq_equiv};

    ghost laws = { nat_list_eq_equiv };
}

impl Hash for HogText {
    ghost use Rattle.std.specs.Hash as fed;
    ghost use Rattle.std.proofs.Common.{rules};
    ghost use Rattle.std.specs.Cmp.Rules.{hashing};

    ghost hash_input = { λ t. fed.str t };

    ghost respects_eq = { Prim.search (hashing, rules) };

    fn hash<H: Hasher>(&self, state: &mut H) {
        self.text.hash(state);
    }
}

impl PartialOrd for HogText {
    ghost use Rattle.std.proofs.Common.{rules};
    ghost use Rattle.std.specs.Cmp.{partial_order_from_own_ties};
    ghost use Rattle.std.specs.Cmp.Rules.{comparing};
    ghost use Rattle.std.specs.Ordering.{nat_cmp, as_partial_cmp};
    ghost use Rattle.std.specs.Cmp.Lexicographic.{slice_cmp};

    ghost partial_cmp = { as_partial_cmp (slice_cmp nat_cmp) };

    ghost laws = { partial_order_from_own_ties (Prim.search (comparing, rules)) (Prim.search (comparing, rules)) };

    fn partial_cmp(&self, other: &HogText) -> Option<Ordering> {
        Some(self.cmp(other))
    }
}

impl Ord for HogText {
    ghost use Rattle.std.proofs.Common.{rules};
    ghost use Rattle.std.specs.Cmp.Rules.{comparing};
    ghost use Rattle.std.specs.Ordering.{nat_cmp};
    ghost use Rattle.std.specs.Cmp.Lexicographic.{slice_cmp};

    ghost cmp = { slice_cmp nat_cmp };

    ghost total = { Prim.search (comparing, rules) };

    ghost matches_partial_cmp = { Prim.search (comparing, rules) };

    ghost matches_eq = { Prim.search (comparing, rules) };

    fn cmp(&self, other: &HogText) -> Ordering {
        self.text.cmp(&other.text)
    }
}

impl AsStr for HogText {
    ghost text = { λ t. t };

    fn as_str(&self) -> &str {
        self.text.as_str()
    }
}
