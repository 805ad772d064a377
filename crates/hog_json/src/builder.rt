//! A text of bounded length that is built piece by piece.

ghost use Rattle.std.specs.Prelude.{◌≡◌, ◌<◌, ◌≤◌, ◌-◌, ◌++◌, ◌∷◌, [], List, ℕ, IfOk, OnOk, length, string_bytes, encode_utf8, flat_map, MatchOption};
ghost use Rattle.std.specs.Fmt.{signed_decimal};
ghost use Rattle.json.specs.Print.{quoted};
ghost use Rattle.hog_json.specs.Texts.{shown_byte, single_quoted};

use hog_value::{HogText, Stop};
use itoa::Buffer;
use serde_json::Value;
use std::alloc::{AllocError, Global};
use std::convert::AsStr;
use std::marker::Model;

/// A text that is being built, of at most `limit` bytes, and the cells that are open where it ends.
#[derive(Drop)]
pub(crate) struct Builder {
    alloc: Global,
    text: String,
    limit: u32,
    open_cells: Vec<u32>,
}

impl Model for Builder {
    ghost use Rattle.std.specs.Prelude.{◌≤◌, length, string_bytes};
    ghost use Rattle.hog_json.specs.Building.{Built};

    ghost Value = { Built };

    ghost view = { λ b. record { text = string_bytes b.text; limit = b.limit; open_cells = b.open_cells.items } };

    ghost invariant = { λ b. length (string_bytes b.text) ≤ b.limit };
}

/// A text as JSON spells a string.
pub(crate) fn quoted(alloc: Global, text: &HogText) -> Result<String, AllocError>
    ensures { IfOk result (λ spelled. string_bytes spelled ≡ quoted text.now) }
{
    Value::try_from_str(alloc, text.as_str())?.to_string(alloc)
}

/// The escape of a character in single quotes, where it has one.
#[tactic(auto, using(crate::proofs::Escapes::escapes))]
fn escape_of(ch: char) -> Option<&'static str>
    ensures { MatchOption result (flat_map shown_byte (encode_utf8 ch) ≡ encode_utf8 ch)
        (λ e. flat_map shown_byte (encode_utf8 ch) ≡ e.now) }
{
    match ch {
        '\\' => Some("\\\\"),
        '\'' => Some("\\'"),
        '\n' => Some("\\n"),
        '\r' => Some("\\r"),
        '\t' => Some("\\t"),
        _ => None,
    }
}

impl Builder {
    ghost use Rattle.hog_json.specs.Building.{TooLong, added};
    ghost use Rattle.std.specs.Prelude.{◌==◌};
    ghost use Rattle.std.specs.List.{list_any};

    /// An empty text of at most `limit` bytes. Takes no memory.
    pub(crate) fn new(alloc: Global, limit: u32) -> Builder
        ensures { result ≡ record { text = []; limit = limit; open_cells = [] } }
    {
        Builder {
            alloc,
            text: String::new(alloc),
            limit,
            open_cells: Vec::new(alloc),
        }
    }

    /// The text. Takes no memory.
    pub(crate) fn finish(self) -> HogText
        ensures text { result ≡ self.text }
        ensures fits { length result ≤ self.limit }
    {
        let Builder { text, .. } = self;
        HogText::from_string(text)
    }

    /// How many bytes still fit. Takes no memory.
    fn room(&self) -> usize
        ensures { result ≡ self.now.limit - length self.now.text }
    {
        self.limit as usize - self.text.len()
    }

    /// Adds a piece.
    pub(crate) fn put(&mut self, piece: &str) -> Result<(), Stop>
        ensures ok { OnOk result (self.new ≡ added piece.now self.old) }
        ensures spent { result ≡ Err Stop.UnitsSpent
            → TooLong piece.now self.old }
    {
        if piece.len() > self.room() {
            return Err(Stop::UnitsSpent);
        }
        self.text.push_str(piece)?;
        Ok(())
    }

    /// Adds a whole number in decimal.
    pub(crate) fn put_number(&mut self, n: i64) -> Result<(), Stop>
        ensures ok { OnOk result (self.new ≡ added (signed_decimal n) self.old) }
        ensures spent { result ≡ Err Stop.UnitsSpent
            → TooLong (signed_decimal n) self.old }
    {
        let mut digits = Buffer::new();
        self.put(digits.format(n))
    }

    /// Adds a text as JSON spells a string.
    pub(crate) fn put_quoted(&mut self, text: &HogText) -> Result<(), Stop>
        ensures ok { OnOk result (self.new ≡ added (quoted text.now) self.old) }
        ensures spent { result ≡ Err Stop.UnitsSpent
            → TooLong (quoted text.now) self.old }
    {
        // What doesn't fit even without escapes is not spelled at all.
        if text.bytes().len() > self.room() {
            return Err(Stop::UnitsSpent);
        }
        let spelled = quoted(self.alloc, text)?;
        self.put(spelled.as_str())
    }

    /// Adds a text in single quotes.
    pub(crate) fn put_single_quoted(&mut self, text: &HogText) -> Result<(), Stop>
        ensures ok { OnOk result (self.new ≡ added (single_quoted text.now) self.old) }
        ensures spent { result ≡ Err Stop.UnitsSpent
            → TooLong (single_quoted text.now) self.old }
    {
        self.put("'")?;
        self.put_escaped(text.as_str())?;
        self.put("'")
    }

    /// Adds the characters of a text with their escapes.
    fn put_escaped(&mut self, text: &str) -> Result<(), Stop>
        ensures ok { OnOk result (self.new ≡ added (flat_map shown_byte text.now) self.old) }
        ensures spent { result ≡ Err Stop.UnitsSpent
            → TooLong (flat_map shown_byte text.now) self.old }
    {
        for ch in text.chars() {
            self.put_char(ch)?;
        }
        Ok(())
    }

    /// Adds a character with its escape, where it has one.
    fn put_char(&mut self, ch: char) -> Result<(), Stop>
        ensures ok { OnOk result (self.new ≡ added (flat_map shown_byte (encode_utf8 ch)) self.old) }
        ensures spent { result ≡ Err Stop.UnitsSpent
            → TooLong (flat_map shown_byte (encode_utf8 ch)) self.old }
    {
        match escape_of(ch) {
            Some(escape) => self.put(escape),
            None => self.put_plain(ch),
        }
    }

    /// Adds a character as it is.
    fn put_plain(&mut self, ch: char) -> Result<(), Stop>
        ensures ok { OnOk result (self.new ≡ added (encode_utf8 ch) self.old) }
        ensures spent { result ≡ Err Stop.UnitsSpent
            → TooLong (encode_utf8 ch) self.old }
    {
        if ch.len_utf8() > self.room() {
            return Err(Stop::UnitsSpent);
        }
        self.text.push(ch)?;
        Ok(())
    }

    /// Whether a cell is open. Takes no memory.
    pub(crate) fn is_open(&self, n: u32) -> bool
        ensures { result ≡ list_any (λ m. m == n) self.now.open_cells }
    {
        self.open_cells.as_slice().contains(&n)
    }

    /// Opens a cell.
    pub(crate) fn enter(&mut self, n: u32) -> Result<(), Stop>
        ensures ok { OnOk result (self.new
            ≡ record self.old { open_cells = self.old.open_cells ++ n ∷ [] }) }
        ensures spent { ¬ (result ≡ Err Stop.UnitsSpent) }
    {
        self.open_cells.push(n)?;
        Ok(())
    }

    /// Closes the cell that was opened last.
    pub(crate) fn leave(&mut self)
        ensures { (path : List ℕ) (n : ℕ) → self.old.open_cells ≡ path ++ n ∷ []
            → self.new ≡ record self.old { open_cells = path } }
    {
        let _closed = self.open_cells.pop();
    }
}
