//! The literal texts of a tree.

ghost use Rattle.std.specs.Prelude.{◌≡◌, List, ℕ, map, IfOk};
ghost use Rattle.std.specs.Option.{option_copied};
ghost use Rattle.hog_tree.specs.View.{tree_of};
ghost use Rattle.hog_scope.specs.Events.{event_of};
ghost use Rattle.hog_scope.specs.Literals.{item_count, text_of, literals_of};

use crate::item::Item;
use crate::scoped::Scoped;
use crate::words::{Event, words};
use hog_value::{HogText, Texts};
use std::alloc::{AllocError, Global};
use std::collections::BTreeSet;
use std::convert::AsStr;

// The literal text of an event; `item` is that of its word.
fn text_of<'t>(event: Event<'t>, item: Option<Item>) -> Option<&'t HogText>
    ensures { option_copied result ≡ text_of (event_of event.entry) item }
{
    match (event, item) {
        (Event::Spells(text), _) => Some(text),
        (Event::Reads(name), Some(Item::Global)) => Some(&name.word),
        _ => None,
    }
}

// How many words of an event name something.
fn item_count(event: Event) -> usize
    ensures { result ≡ item_count (event_of event.entry) }
{
    match event {
        Event::Declares(_) | Event::Reads(_) | Event::Assigns(_) | Event::Calls(_, _) => 1,
        Event::Opens | Event::Closes | Event::Binds(_) | Event::Spells(_) => 0,
    }
}

fn literal_set<'t>(alloc: Global, s: &Scoped<'t>) -> Result<BTreeSet<&'t str>, AllocError>
    ensures { IfOk result (λ set. map (λ t. t.now) set.keys ≡ literals_of (tree_of s.now.tree) s.now.items) }
{
    let words = words(alloc, s.tree())?;
    let items = s.items();
    let mut texts = BTreeSet::new(alloc);
    let mut next = 0;
    for event in &words {
        if let Some(text) = text_of(*event, items.get(next).copied()) {
            texts.insert(text.as_str())?;
        }
        next += item_count(*event);
    }
    Ok(texts)
}

/// The distinct literal texts of a tree in byte order: its texts, the text parts of its templates, the property names
/// after `.` and `?.`, and the names that are read as globals.
pub fn literals(alloc: Global, s: &Scoped) -> Result<Texts, AllocError>
    ensures { IfOk result (λ texts. texts ≡ literals_of (tree_of s.now.tree) s.now.items) }
{
    let set = literal_set(alloc, s)?;
    let mut texts = Vec::new(alloc);
    for text in &set {
        texts.push(HogText::from_string(String::from_str(alloc, *text)?))?;
    }
    Ok(Texts::new(texts))
}
