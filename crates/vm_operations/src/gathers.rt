//! Operations that take so many operands: AND, OR, arrays, dictionaries, globals.

ghost use Rattle.std.specs.Prelude.{◌≡◌, ◌<◌, ◌≤◌, length, All, IfOk, OnOk};
ghost use Rattle.std.specs.List.{list_all, list_any};
ghost use Rattle.hog_value.specs.Values.{NamesBelow};
ghost use Rattle.hog_value.specs.Operations.{truth_of};
ghost use Rattle.hog_ops.specs.Plain as o;
ghost use Rattle.hog_meaning.specs.World.{Fixed};
ghost use Rattle.vm_course.specs.State.{Slot};
ghost use Rattle.vm_course.specs.Step.{act, property_path};
ghost use Rattle.vm_operations.specs.Here.{here_of, Does, set_stop};

use crate::state::State;
use hog_operators::{access, make_dictionary, read_key};
use hog_value::{Cell, Heap, Items, Kind, SetStop, Stop, Value};
use std::alloc::{AllocError, Global};

/// Whether all values are true. Takes no memory.
fn all_true(heap: &Heap, values: &[Value]) -> bool
    requires { All (NamesBelow (length heap.now)) values.now }
    ensures { result ≡ list_all (truth_of heap.now) values.now }
{
    values.iter().all(|v| heap.truth(*v))
}

/// Whether one of the values is true. Takes no memory.
fn any_true(heap: &Heap, values: &[Value]) -> bool
    requires { All (NamesBelow (length heap.now)) values.now }
    ensures { result ≡ list_any (truth_of heap.now) values.now }
{
    values.iter().any(|v| heap.truth(*v))
}

/// Why making a cell stopped, as why setting does.
pub(crate) fn set_stop(why: Stop) -> SetStop
    ensures { result ≡ set_stop why }
{
    match why {
        Stop::UnitsSpent => SetStop::UnitsSpent,
        Stop::OutOfMemory => SetStop::OutOfMemory,
    }
}

impl State {
    /// AND
    #[inline(never)]
    pub(crate) fn and(&mut self, alloc: Global, behind: u32, n: u32) -> Result<(), AllocError>
        ensures { OnOk result (Does (o.And n) behind self.old self.new) }
    {
        let (values, rest) = self.popped(alloc, u64::from(n))?;
        let truth = all_true(&self.heap, values.as_slice());
        self.go_on_with(behind, rest, Value::Bool(truth))
    }

    /// OR
    #[inline(never)]
    pub(crate) fn or(&mut self, alloc: Global, behind: u32, n: u32) -> Result<(), AllocError>
        ensures { OnOk result (Does (o.Or n) behind self.old self.new) }
    {
        let (values, rest) = self.popped(alloc, u64::from(n))?;
        let truth = any_true(&self.heap, values.as_slice());
        self.go_on_with(behind, rest, Value::Bool(truth))
    }

    /// ARRAY
    pub(crate) fn array(&mut self, alloc: Global, behind: u32, n: u32) -> Result<(), AllocError>
        ensures { OnOk result (Does (o.Array n) behind self.old self.new) }
    {
        let (values, rest) = self.operands(alloc, u64::from(n))?;
        let mut meter = self.meter;
        let made = self.heap.make(Cell::Array(Items::new(values)), &mut meter);
        self.meter = meter;
        match made {
            Ok(v) => self.go_on_with(behind, rest, v),
            Err(why) => self.stop(alloc, set_stop(why)),
        }
    }

    /// DICT
    pub(crate) fn dict(&mut self, alloc: Global, behind: u32, n: u32) -> Result<(), AllocError>
        ensures { OnOk result (Does (o.Dict n) behind self.old self.new) }
    {
        let (values, rest) = self.operands(alloc, 2 * u64::from(n))?;
        let mut meter = self.meter;
        let made = make_dictionary(alloc, values.as_slice(), &mut self.heap, &mut meter);
        self.meter = meter;
        match made {
            Ok(v) => self.go_on_with(behind, rest, v),
            Err(why) => self.stop(alloc, why),
        }
    }
}
