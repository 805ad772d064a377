//! A pattern, and the texts that it matches.

ghost use Rattle.std.specs.Prelude.{◌≡◌, ◌==◌, IfOk};
ghost use Rattle.std.specs.List.{list_any};
ghost use Rattle.std.specs.Str.{IsUtf8};
ghost use Rattle.regex.specs.Strings.{regex_source};
ghost use Rattle.event_patterns.specs.Patterns.{IsBuilt, IsPattern, IsRefused, matches};

use hog_value::HogText;
use regex::{Error, Regex};
use std::alloc::{AllocError, Global};
use std::marker::Model;

/// Why a text is no pattern.
#[derive(Clone, Copy, Debug, PartialEq, Eq)]
pub enum PatternStop {
    /// The text has an open brace, or the grammar of regular expressions refuses it.
    Refused,
    /// Memory was wanting, or the pattern would take more than regex allows.
    OutOfMemory,
}

/// A regular expression, as the kit's regex reads it from a text without an open brace. Contracts see the
/// text.
#[derive(Drop)]
pub struct Pattern {
    regex: Regex,
}

impl Model for Pattern {
    ghost use Rattle.std.specs.Prelude.{ℕ, List};
    ghost use Rattle.regex.specs.Strings.{regex_source};
    ghost use Rattle.event_patterns.specs.Patterns.{IsBuilt};

    ghost Value = { List ℕ };

    ghost view = { λ p. regex_source p.regex };

    ghost invariant = { λ p. IsBuilt p.regex };
}

/// Whether a text has an open brace. Takes no memory.
fn has_brace(bytes: &[u8]) -> bool
    ensures { result ≡ list_any (λ b. b == 123) bytes.now }
{
    bytes.contains(&b'{')
}

impl Pattern {
    /// The pattern of a text. Counted repetition has braces, and is no part of these patterns.
    pub fn read(alloc: Global, text: &HogText) -> Result<Pattern, PatternStop>
        ensures text { IfOk result (λ p. p ≡ text.now) }
        ensures pattern { IfOk result (λ p. IsPattern p) }
        ensures refused { result ≡ Err PatternStop.Refused → IsRefused text.now }
    {
        if has_brace(text.bytes()) {
            return Err(PatternStop::Refused);
        }
        let Ok(source) = std::str::from_utf8(text.bytes()) else {
            unreachable!()
        };
        match Regex::new(alloc, source) {
            Ok(regex) => Ok(Pattern { regex }),
            Err(Error::Syntax(_)) => Err(PatternStop::Refused),
            Err(Error::CompiledTooBig | Error::Internal | Error::OutOfMemory) => Err(
                PatternStop::OutOfMemory,
            ),
        }
    }

    /// Whether the pattern matches somewhere in a text, in characters of UTF-8.
    pub fn is_in(&self, alloc: Global, text: &HogText) -> Result<bool, AllocError>
        ensures { IfOk result (λ found. found ≡ matches self.now text.now) }
    {
        is_found(alloc, &self.regex, text.bytes())
    }
}

/// Whether an expression matches somewhere in bytes that are UTF-8.
fn is_found(alloc: Global, regex: &Regex, bytes: &[u8]) -> Result<bool, AllocError>
    requires utf8 { IsUtf8 bytes.now }
    requires built { IsBuilt regex.now }
    ensures { IfOk result (λ found. found ≡ matches (regex_source regex.now) bytes.now) }
{
    let Ok(haystack) = std::str::from_utf8(bytes) else {
        unreachable!()
    };
    let mut matcher = regex.matcher(alloc)?;
    Ok(matcher.is_match(haystack))
}
