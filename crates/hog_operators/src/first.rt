//! The first cells of a run.

ghost use Rattle.std.specs.Prelude.{◌≡◌, []};
ghost use Rattle.hog_meaning.specs.Program.{first_cells};
ghost use Rattle.hog_library.specs.Products.{Makes};

use hog_library::make_first;
use hog_value::{Heap, HogText, Meter, Stop, Value};
use std::alloc::Global;

/// Makes the literal texts of a program and then its globals, all of them or none, on a heap without cells. The value is
/// that of the globals.
#[tactic(auto, unfolding(hog_meaning::specs::Program::first_cells))]
pub fn make_first_cells(
    alloc: Global,
    texts: Vec<HogText>,
    globals: &HogText,
    heap: &mut Heap,
    m: &mut Meter,
) -> Result<Value, Stop>
    requires empty { heap.old ≡ [] }
    requires unspent { m.old.units ≡ 0 }
    ensures { Makes (first_cells texts.items globals.now) result [] heap.new m.old m.new }
{
    make_first(alloc, texts, globals, heap, m)
}
