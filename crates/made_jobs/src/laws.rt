//! Laws of the made plan. The functions do nothing: their clauses are the laws.

ghost use Rattle.made_jobs.specs.Laws.{MadeJobsAreSmall, MadeIsAPlan};

/// The jobs that a made plan has are few, their inputs are small, and their replies are those of a list.
pub fn made_jobs_are_small()
    ensures { MadeJobsAreSmall }
{
    made_plans::laws::made_is_checked();
    event_plans::globals_size();
}

/// The made plan of a number of at most 3,000 is a plan: there is no refusal.
pub fn made_is_a_plan()
    ensures { MadeIsAPlan }
{
    made_jobs_are_small();
    made_sources::sources_are_built();
    event_destinations::laws::all_or_first_stop();
}
