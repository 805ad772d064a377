//! Trees whose names are resolved.

ghost use Rattle.std.specs.Prelude.{◌≡◌, ◌≢◌, Ok, Err, IfOk, length};
ghost use Rattle.hog_scope.specs.declared.stop.ScopeStop.{ScopeStop as Stop};
ghost use Rattle.hog_tree.specs.Names.{tree_names};
ghost use Rattle.hog_scope.specs.Stops.{resolution};

use crate::item::Item;
use crate::resolver::Resolver;
use crate::stop::ScopeStop;
use crate::words::words;
use hog_tree::tree::Tree;
use std::alloc::Global;
use std::marker::Model;

/// A tree, and what its words name.
#[derive(Drop)]
pub struct Scoped<'t> {
    tree: &'t Tree,
    items: Vec<Item>,
}

impl<'t> Model for Scoped<'t> {
    ghost use Rattle.std.specs.Prelude.{◌≡◌, Ok};
    ghost use Rattle.hog_scope.specs.Stops.{resolution, ScopedTree};
    ghost use Rattle.hog_tree.specs.contracts.tree.Tree as tree_type;
    ghost use Rattle.std.specs.Coded.{codes};

    ghost Value = { ScopedTree };

    ghost coded = { Prim.hlevel (codes, tree_type.the_row.coded) };

    ghost view = { λ s. record { tree = s.tree.now; items = s.items.items } };

    ghost invariant = { λ s. resolution s.tree.now ≡ Ok s.items.items };
}

impl<'t> Scoped<'t> {
    /// Takes no memory.
    pub fn tree(&self) -> &'t Tree
        ensures tree { result.now ≡ self.now.tree }
        ensures resolved { resolution self.now.tree ≡ Ok self.now.items }
    {
        self.tree
    }

    /// One item for each word of the tree that names something, in the order of the source. Takes no memory.
    pub fn items(&self) -> &[Item]
        ensures items { result.now ≡ self.now.items }
        ensures each { length result.now ≡ length (tree_names self.now.tree) }
        ensures resolved { resolution self.now.tree ≡ Ok self.now.items }
    {
        self.items.as_slice()
    }
}

/// Finds what each word of a tree names. Places in refusals are those of the names in the text.
pub fn resolve<'t>(alloc: Global, t: &'t Tree) -> Result<Scoped<'t>, ScopeStop>
    ensures tree { IfOk result (λ s. s.tree ≡ t.now) }
    ensures items { IfOk result (λ s. resolution t.now ≡ Ok s.items) }

    // The refusal is that of the first fault in the order of the source.
    ensures refused { (e : Stop) → result ≡ Err e → e ≢ ScopeStop.OutOfMemory → resolution t.now ≡ Err e }
{
    let mut resolver = Resolver::new(alloc);
    let words = words(alloc, t)?;
    for event in &words {
        resolver.step(*event)?;
    }
    let items = resolver.into_items();
    Ok(Scoped { tree: t, items })
}
