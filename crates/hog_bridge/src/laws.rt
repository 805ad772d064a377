//! How the machine's course on the code of a program stands to what the program means, and which texts that code makes
//! first. The functions do nothing: their clauses are the laws.

ghost use Rattle.hog_bridge.specs.Laws.{CourseIsMeaning, CourseIsBounded, CourseRests, LiteralsAreSame};

/// Every course on the code of a program whose names are right shows exactly what the program means.
pub fn course_is_meaning()
    ensures { CourseIsMeaning }
{}

/// A course is so long at most, by the turns that it has spent and the operations of the code.
pub fn course_is_bounded()
    ensures { CourseIsBounded }
{}

/// Every course ends, or waits with all replies used.
pub fn course_rests()
    ensures { CourseRests }
{}

/// The literal texts of a program's code are those of the program.
pub fn literals_are_same()
    ensures { LiteralsAreSame }
{}
