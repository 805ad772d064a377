//! Laws of codes and of runs.

ghost use Rattle.vm_course.specs.Laws.{SlicesCompose, SlicesCount, CodesFit, CodesCount, HeapGrows, BeginsBelonging, KeepsBelonging, SlicesBelong, RepliesBelong, BeginsOnCourse, SlicesOnCourse, RepliesOnCourse};

/// Two slices, one after the other, leave what one slice of as many operations leaves.
pub fn slices_compose()
    ensures { SlicesCompose }
{}

/// How many operations a slice does, that it takes in no reply, and that it changes nothing where the run doesn't go on.
pub fn slices_count()
    ensures { SlicesCount }
{}

/// Each operation that stands at a place of a code fits: its end is a place, where it leads is one, and its operands are
/// those of the table.
pub fn codes_fit()
    ensures { CodesFit }
{}

/// A code has as many places as elements, and the two of its header.
pub fn codes_count()
    ensures { CodesCount }
{}

/// No operation takes a cell away from the heap.
pub fn heap_grows()
    ensures { HeapGrows }
{}

/// A run begins as one that belongs to its code: its places are places of the code, the places of its functions' cells are
/// those of bodies, and its first cells are the code's literals, in order.
pub fn begins_belonging()
    ensures { BeginsBelonging }
{}

/// One operation more leaves a run that belongs to its code one that does.
pub fn keeps_belonging()
    ensures { KeepsBelonging }
{}

/// A slice leaves a run that belongs to its code one that does.
pub fn slices_belong()
    ensures { SlicesBelong }
{}

/// A reply that is taken in leaves a run that belongs to a code one that does.
pub fn replies_belong()
    ensures { RepliesBelong }
{}

/// A run that begins is on the machine's course, on any replies.
pub fn begins_on_course()
    ensures { BeginsOnCourse }
{}

/// A run on the machine's course is there still after a slice.
pub fn slices_on_course()
    ensures { SlicesOnCourse }
{}

/// A run on the machine's course that waits is there still when it has taken in the next reply.
pub fn replies_on_course()
    ensures { RepliesOnCourse }
{}
