//! Laws of what jobs show. The functions do nothing: their clauses are the laws.

ghost use Rattle.job_lines.specs.Laws.{FewReplies, OneShown, RepliesAreListed, RowsShowLines};

/// A job on course that waits for a reply has had fewer replies than a run may ask for.
pub fn few_replies()
    ensures { FewReplies }
{
    vm_requests::laws::replies_answer_requests();
}

/// The replies that a queue has for a job with listed answers are the first of its list.
pub fn replies_are_listed()
    ensures { RepliesAreListed }
{}

/// A completed row with listed answers shows just what its input says.
pub fn rows_show_lines()
    ensures { RowsShowLines }
{
    replies_are_listed();
    hog_meaning::laws::more_replies();
}

/// An input says of one thing at most that it is what the job shows.
pub fn one_shown()
    ensures { OneShown }
{
    hog_program::laws::one_meaning();
}
