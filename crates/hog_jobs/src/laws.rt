//! Laws of runs on course, and of rows. The functions do nothing: their clauses are the laws.

ghost use Rattle.hog_jobs.specs.Inputs.{KeptGlobals, GlobalsAreObjects, MachinesStart};
ghost use Rattle.hog_jobs.specs.Rows.{RowsAgree, QueuesAgree};
ghost use Rattle.hog_jobs.specs.Laws.{RunsBegin, RunsGoOn, RunsTakeReplies, OneRun, HogGoesOn, FewOperations};

/// A run that begins is on course.
pub fn runs_begin()
    ensures { RunsBegin }
{}

/// A run on course is on course after a slice.
pub fn runs_go_on()
    ensures { RunsGoOn }
{}

/// A run on course that waits is on course when it has taken in the next reply.
pub fn runs_take_replies()
    ensures { RunsTakeReplies }
{}

/// One run at most is on course after so many operations, so the text that is saved is determined.
pub fn one_run()
    ensures { OneRun }
{}

/// A machine that is to be run runs, or waits for a reply that is there.
pub fn hog_goes_on()
    ensures { HogGoesOn }
{}

/// A run on course has done fewer than 2^63 operations.
pub fn few_operations()
    ensures { FewOperations }
{
    hog_program::laws::course_is_short();
}

/// A row on course agrees with what its source means on its globals and its committed replies.
pub fn rows_agree()
    ensures { RowsAgree }
{
    hog_program::laws::course_shows_meaning();
}

/// What holds of each queue over `HogCourse` that began empty, whatever calls were made.
pub fn keeps_the_meaning()
    ensures { QueuesAgree }
{
    rows_agree();
}

/// The text under which an object is kept is right as globals, where it is not too long. Right globals are an object, and a
/// machine starts on just these.
pub fn kept_globals()
    ensures kept { KeptGlobals }
    ensures objects { GlobalsAreObjects }
    ensures start { MachinesStart }
{}
