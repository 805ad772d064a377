// What more replies change of what a program shows.

ghost use Rattle.hog_meaning.specs.Laws.{MoreReplies};

/// More replies change nothing of what a program shows, unless it waits for one; and then its trace goes on.
pub fn more_replies()
    ensures { MoreReplies }
{}
