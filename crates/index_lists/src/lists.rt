//! Lists of nodes, each node in at most one.
ghost use Rattle.std.specs.Prelude.{◌≡◌, ◌≢◌, ℕ, ◌+◌, ◌-◌, ◌<◌, ◌≤◌, ◌^◌, [], length, max, replicate, OnOk, OnErr, slice_get, Contains, Some, vec_len, vec_capacity};
ghost use Rattle.index_lists.specs.Lists.{nodes_of, IsListed, put_list, without_node};
ghost use Rattle.index_lists.specs.Order.{IsInOrder, IsPlaced};
ghost use Rattle.index_lists.specs.Links.{node_in, nodes_in, IsThreaded, IsGap, IsJoin, IsInsertion, after_at, before_at};

use crate::before::Before;
use std::alloc::{AllocError, Global};
use std::marker::Model;

/// The neighbors of a place.
#[derive(Clone, Copy)]
struct Link {
    before: usize,
    after: usize,
}

/// Lists of nodes. Each list is a ring of places in `links`: its end stands at the list's number, and node n
/// at n behind all ends. A place past the vector is its own neighbor, so lists without memory are empty.
#[derive(Drop)]
pub struct Lists {
    ends: u32,
    links: Vec<Link>,
}

impl Model for Lists {
    ghost use Rattle.index_lists.specs.Lists.{ListsOf};
    ghost use Rattle.index_lists.specs.Links.{view_of, IsThreaded};

    ghost Value = { ListsOf };

    ghost view = { λ a. view_of a.links.items a.ends };

    ghost invariant = { λ a. IsThreaded a.links.items a.ends };
}

impl Lists {
    /// So many empty lists, with no node reserved. It takes no memory.
    pub fn new(alloc: Global, lists: u32) -> Lists
        ensures { result ≡ record { lists = replicate lists []; reserved = 0 } }
    {
        Lists {
            ends: lists,
            links: Vec::new(alloc),
        }
    }

    /// Makes room for the nodes below this number. No other call takes memory.
    pub fn reserve(&mut self, nodes: u32) -> Result<(), AllocError>
        ensures ok { OnOk result (self.new ≡ record self.old { reserved = max self.old.reserved nodes }) }
        ensures err { OnErr result (self.new ≡ self.old) }
    {
        let places = self.ends as usize + nodes as usize;
        self.links.reserve(places.saturating_sub(self.links.len()))?;
        grow(&mut self.links, places);
        Ok(())
    }

    /// Puts a node at its place in a list that is in order. It looks for the place from both ends in turn, so a node
    /// that goes first or last takes constant time.
    pub fn insert_by<L: Before>(&mut self, list: u32, node: u32, order: &L)
        requires list { list < length self.old.lists }
        requires node { node < self.old.reserved }
        requires apart { ¬ (IsListed self.old node) }
        requires in_order { IsInOrder (L.comes order.now) (nodes_of self.old list) }
        ensures placed { IsPlaced (L.comes order.now) node
            (nodes_of self.old list) (nodes_of self.new list) }
        ensures others { self.new ≡ put_list self.old list (nodes_of self.new list) }
        ensures in_order { IsInOrder (L.comes order.now) (nodes_of self.new list) }
    {
        let place = self.ends as usize + node as usize;
        let at = gap(self.links.as_slice(), self.ends, list, node, order);
        put_behind(self.links.as_mut_slice(), at, place);
    }

    /// Takes a node out of the list in which it stands.
    pub fn unlink(&mut self, node: u32)
        requires { IsListed self.old node }
        ensures out { self.new ≡ without_node self.old node }
        ensures apart { ¬ (IsListed self.new node) }
    {
        let place = self.ends as usize + node as usize;
        let Link { before, after } = self.links[place];
        join(self.links.as_mut_slice(), before, after);
    }

    /// The first node of a list.
    pub fn first(&self, list: u32) -> Option<u32>
        requires { list < length self.now.lists }
        ensures { result ≡ slice_get (nodes_of self.now list) 0 }
    {
        let end = self.links.get(list as usize)?;
        node_at(self.ends, end.after)
    }

    /// The node behind one that stands in a list.
    pub fn next(&self, node: u32) -> Option<u32>
        requires { IsListed self.now node }
        ensures { (list i : ℕ) → slice_get (nodes_of self.now list) i ≡ Some node
            → result ≡ slice_get (nodes_of self.now list) (i + 1) }
    {
        let place = self.ends as usize + node as usize;
        node_at(self.ends, self.links[place].after)
    }

    /// No node stands in two lists, and each that stands in one is reserved. This is a law, for callers' proofs.
    pub fn stand_once(&self)
        ensures once { (list other node : ℕ) → Contains (nodes_of self.now list) node
            → Contains (nodes_of self.now other) node → list ≡ other }
        ensures reserved { (node : ℕ) → IsListed self.now node → node < self.now.reserved }
    {
        let _links = &self.links;
    }
}

/// The node at a place, if it isn't an end.
fn node_at(ends: u32, place: usize) -> Option<u32>
    requires { place < ends + 2 ^ 32 }
    ensures { result ≡ node_in ends place }
{
    let ends = ends as usize;
    if place < ends {
        None
    } else {
        Some((place - ends) as u32)
    }
}

/// The place behind which a node goes, looked for from both ends of the list in turn. All nodes up to `front` come
/// before it, and it comes before all behind `last`; none is asked for twice.
fn gap<L: Before>(links: &[Link], ends: u32, list: u32, node: u32, order: &L) -> usize
    requires list { list < ends }
    requires threaded { IsThreaded links.now ends }
    requires room { ends + node < length links.now }
    requires apart { ¬ (Contains (nodes_in links.now ends list) node) }
    requires in_order { IsInOrder (L.comes order.now) (nodes_in links.now ends list) }
    ensures { IsGap (L.comes order.now) links.now ends list node result }
{
    let end = list as usize;
    let ends = ends as usize;
    let mut front = end;
    let mut last = links[end].before;
    'search: while front != last && order.before(node, (last - ends) as u32) {
        last = links[last].before;
        if front != last {
            let next = links[front].after;
            if order.before(node, (next - ends) as u32) {
                return front;
            }
            front = next;
        }
    }
    last
}

/// Makes two places neighbors.
fn join(links: &mut [Link], p: usize, q: usize)
    requires p { p < length links.old }
    requires q { q < length links.old }
    ensures { IsJoin links.old links.new p q }
{
    links[p].after = q;
    links[q].before = p;
}

/// Puts a place between another and the one behind that.
fn put_behind(links: &mut [Link], at: usize, place: usize)
    requires at { at < length links.old }
    requires place { place < length links.old }
    requires next { after_at links.old at < length links.old }
    requires apart { at ≢ place }
    requires next_apart { after_at links.old at ≢ place }
    ensures { IsInsertion links.old links.new at place (after_at links.old at) }
{
    let next = links[at].after;
    join(links, at, place);
    join(links, place, next);
}

/// Adds places that are their own neighbors, up to that number.
fn grow(links: &mut Vec<Link>, places: usize)
    requires { places ≤ vec_capacity links.old }
    ensures len { vec_len links.new ≡ max (vec_len links.old) places }
    ensures after { (place : ℕ) → after_at links.new.items place ≡ after_at links.old.items place }
    ensures before { (place : ℕ) → before_at links.new.items place ≡ before_at links.old.items place }
{
    for place in links.len()..places {
        links.push_reserved(Link {
            before: place,
            after: place,
        });
    }
}
