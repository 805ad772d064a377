//! A dictionary that is written out.

ghost use Rattle.std.specs.Prelude.{◌≡◌, [], length, All, IfOk, IfSome};
ghost use Rattle.hog_value.specs.Values.{NamesBelow};
ghost use Rattle.hog_value.specs.Cells.{IsCovered};
ghost use Rattle.hog_meaning.specs.Operators.{pairs_of, dictionary_made};
ghost use Rattle.hog_operators.specs.Pairs.{in_turn, pairs_given};
ghost use Rattle.hog_operators.specs.Settles.{Builds};

use crate::inside::text_named;
use hog_value::{Cell, Heap, Kind, Meter, Pairs, SetStop, Stop, Value};
use indexmap::IndexMap;
use std::alloc::{AllocError, Global};

/// The pairs of keys and values in turn; a repeated key keeps its place with the later value. None where a key is no text.
fn pairs_of(alloc: Global, vs: &[Value], heap: &Heap) -> Result<Option<Pairs>, AllocError>
    requires { All (NamesBelow (length heap.now)) vs.now }
    ensures ok { IfOk result (λ pairs. pairs_of heap.now (in_turn vs.now) [] ≡ pairs_given pairs) }
    ensures names { IfOk result (λ pairs. IfSome pairs (All (λ p. NamesBelow (length heap.now) p.1))) }
{
    let mut pairs = IndexMap::new(alloc);
    for i in 0..vs.len() / 2 {
        let Some(key) = text_named(heap, vs[2 * i]) else {
            return Ok(None);
        };
        pairs.insert(key.copy()?, vs[2 * i + 1])?;
    }
    Ok(Some(Pairs::new(pairs)))
}

/// Makes the dictionary of keys and values in turn. Where it stops, heap and meter are as before.
#[tactic(auto, unfolding(hog_meaning::specs::Operators::dictionary_made))]
pub fn make_dictionary(
    alloc: Global,
    vs: &[Value],
    heap: &mut Heap,
    m: &mut Meter,
) -> Result<Value, SetStop>
    requires names { All (NamesBelow (length heap.old)) vs.now }
    requires covered { IsCovered heap.old m.old.units }
    ensures { Builds (dictionary_made (in_turn vs.now) heap.old m.old.units) result heap.old heap.new m.old m.new }
{
    let Some(pairs) = pairs_of(alloc, vs, heap)? else {
        return Err(SetStop::Thrown(Kind::TypeError));
    };
    match heap.make(Cell::Dict(pairs), m) {
        Ok(v) => Ok(v),
        Err(Stop::UnitsSpent) => Err(SetStop::UnitsSpent),
        Err(Stop::OutOfMemory) => Err(SetStop::OutOfMemory),
    }
}
