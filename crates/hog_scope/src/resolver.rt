//! What is known at a point of the source.

ghost use Rattle.std.specs.Prelude.{◌≡◌, ◌++◌, ◌∷◌, [], reverse, OnOk, IfErr};
ghost use Rattle.hog_value.specs.Natives.{native_named};
ghost use Rattle.hog_scope.specs.Scopes.{start, nearest, seen_at, read_item, assigned_item, called_item, opened, closed, step};
ghost use Rattle.hog_scope.specs.Words.{Declares, Binds};
ghost use Rattle.hog_scope.specs.Events.{event_of, name_in};
ghost use Rattle.hog_scope.specs.Stops.{IsStop, IsAnswer, place_of_name};

use crate::item::Item;
use crate::scope::Scope;
use crate::stop::ScopeStop;
use crate::words::Event;
use hog_tree::tree::Named;
use hog_value::{HogText, Native};
use std::alloc::{AllocError, Global};
use std::marker::Model;
use std::mem;

/// What the words so far name, and the scopes that are open.
#[derive(Drop)]
pub struct Resolver<'t> {
    items: Vec<Item>,
    declared: usize,
    scope: Scope<'t>,
    /// From the outside in.
    around: Vec<Scope<'t>>,
}

impl<'t> Model for Resolver<'t> {
    ghost use Rattle.std.specs.Prelude.{◌≤◌, length, reverse};
    ghost use Rattle.hog_scope.specs.Scopes.{Known};

    ghost Value = { Known };

    ghost view = { λ r. record { items = r.items.items; declared = r.declared; scope = r.scope; around = reverse r.around.items } };

    ghost invariant = { λ r. r.declared ≤ length r.items.items };
}

// The number of the nearest declaration that is seen; the innermost scope stands last.
fn nearest(scopes: &[Scope], word: &HogText) -> Option<usize>
    ensures { result ≡ nearest (reverse scopes.now) word.now }
{
    let mut rest = scopes;
    while let [outer @ .., scope] = rest {
        if let Some(number) = scope.seen(word) {
            return Some(number);
        }
        rest = outer;
    }
    None
}

fn read_item(seen: Option<usize>) -> Item
    ensures { result ≡ read_item seen }
{
    match seen {
        Some(number) => Item::Declared(number),
        None => Item::Global,
    }
}

fn assigned_item(seen: Option<usize>, at: usize) -> Result<Item, ScopeStop>
    ensures { IsAnswer result at (assigned_item seen) }
{
    match seen {
        Some(number) => Ok(Item::Declared(number)),
        None => Err(ScopeStop::AssignsUnknown { at }),
    }
}

fn called_item(seen: Option<usize>, name: &Named, count: usize) -> Result<Item, ScopeStop>
    ensures { IsAnswer result name.now.at (called_item seen (native_named name.now.word) count) }
{
    if let Some(number) = seen {
        return Ok(Item::Declared(number));
    }
    let at = name.at as usize;
    // No native takes more than a few but those that take any number, so the greatest count stands for all past it.
    let count = u32::try_from(count).unwrap_or(u32::MAX);
    match Native::named(name.word.bytes()) {
        Some(native) if native.takes(count) => Ok(Item::Native(native)),
        Some(_) => Err(ScopeStop::WrongCount { at }),
        None => Err(ScopeStop::UnknownFunction { at }),
    }
}

impl<'t> Resolver<'t> {
    /// Takes no memory.
    pub fn new(alloc: Global) -> Resolver<'t>
        ensures { result ≡ start }
    {
        Resolver {
            items: Vec::new(alloc),
            declared: 0,
            scope: Scope::new(alloc),
            around: Vec::new(alloc),
        }
    }

    fn opens(&mut self) -> Result<(), AllocError>
        ensures { OnOk result (self.new ≡ opened self.old) }
    {
        let inner = Scope::new(*self.items.allocator());
        let outer = mem::replace(&mut self.scope, inner);
        self.around.push(outer)?;
        Ok(())
    }

    fn closes(&mut self)
        ensures { self.new ≡ closed self.old self.old.around }
    {
        if let Some(scope) = self.around.pop() {
            let _ended = mem::replace(&mut self.scope, scope);
        }
    }

    fn declares(&mut self, name: &'t Named) -> Result<(), ScopeStop>
        ensures ok { OnOk result (step (Declares name.now.word) self.old ≡ Ok self.new) }
        ensures stop { IfErr result (λ e. IsStop e name.now.at (step (Declares name.now.word) self.old)) }
    {
        if self.scope.variable(&name.word).is_some() {
            let at = name.at as usize;
            return Err(ScopeStop::AlreadyDeclared { at });
        }
        self.scope.declare(&name.word, self.declared)?;
        self.items.push(Item::Declared(self.declared))?;
        self.declared += 1;
        Ok(())
    }

    fn binds(&mut self, name: &Named)
        ensures { step (Binds name.now.word) self.old ≡ Ok self.new }
    {
        self.scope.bind(&name.word);
    }

    fn seen(&self, word: &HogText) -> Option<usize>
        ensures { result ≡ seen_at self.now word.now }
    {
        match self.scope.seen(word) {
            Some(number) => Some(number),
            None => nearest(self.around.as_slice(), word),
        }
    }

    fn put(&mut self, item: Item) -> Result<(), AllocError>
        ensures { OnOk result (self.new ≡ record self.old { items = self.old.items ++ item ∷ [] }) }
    {
        self.items.push(item)?;
        Ok(())
    }

    /// Goes on by one event. After a refusal it is of no more use.
    pub fn step(&mut self, event: Event<'t>) -> Result<(), ScopeStop>
        ensures ok { OnOk result (step (event_of event.entry) self.old ≡ Ok self.new) }
        ensures stop { IfErr result (λ e.
            IsStop e (place_of_name (name_in event.entry)) (step (event_of event.entry) self.old)) }
    {
        match event {
            Event::Opens => Ok(self.opens()?),
            Event::Closes => {
                self.closes();
                Ok(())
            }
            Event::Declares(name) => self.declares(name),
            Event::Binds(name) => {
                self.binds(name);
                Ok(())
            }
            Event::Reads(name) => {
                let item = read_item(self.seen(&name.word));
                Ok(self.put(item)?)
            }
            Event::Assigns(name) => {
                let item = assigned_item(self.seen(&name.word), name.at as usize)?;
                Ok(self.put(item)?)
            }
            Event::Calls(name, count) => {
                let item = called_item(self.seen(&name.word), name, count)?;
                Ok(self.put(item)?)
            }
            Event::Spells(_) => Ok(()),
        }
    }

    /// What the words name. Takes no memory.
    pub fn into_items(self) -> Vec<Item>
        ensures { result.items ≡ self.entry.items }
    {
        self.items
    }
}
