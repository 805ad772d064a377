//! The lists in which a queue's jobs stand: the available jobs of each queue by their turns, and the running jobs by their
//! silences. Completed and failed jobs stand in none.

ghost use Rattle.std.specs.Prelude.{◌≡◌};
ghost use Rattle.cyclotron_core.specs.Orders.{turn_in, silence_in};
ghost use Rattle.cyclotron_core.specs.Listing.{waiting_list, IsListing, IsListingBut, IsListingBefore};
ghost use Rattle.std.specs.Prelude.{slice_get};

use cyclotron_jobs::row::{JobState, QueueName, Row};
use index_lists::{Before, Lists};
use queue_history::turn::{Silence, Turn, compare_silences, compare_turns};

/// How many lists there are.
pub const LISTS: u32 = 3;

/// The list of the running jobs.
pub const RUNNING: u32 = 2;

/// By priority, then scheduled moment, then number.
#[derive(Clone, Copy)]
struct ByTurn<'a> {
    rows: &'a [Row],
}

impl<'a> Before for ByTurn<'a> {
    ghost use Rattle.cyclotron_core.specs.Orders.{by_turn, by_turn-strict};

    ghost comes = { λ order. by_turn order.rows.now };

    ghost strict = { λ order. by_turn-strict order.rows.now };

    fn before(&self, a: u32, b: u32) -> bool {
        compare_turns(turn(self.rows, a), turn(self.rows, b)).is_lt()
    }
}

/// By the last beat, then number.
#[derive(Clone, Copy)]
struct BySilence<'a> {
    rows: &'a [Row],
}

impl<'a> Before for BySilence<'a> {
    ghost use Rattle.cyclotron_core.specs.Orders.{by_silence, by_silence-strict};

    ghost comes = { λ order. by_silence order.rows.now };

    ghost strict = { λ order. by_silence-strict order.rows.now };

    fn before(&self, a: u32, b: u32) -> bool {
        compare_silences(silence(self.rows, a), silence(self.rows, b)).is_lt()
    }
}

fn turn(rows: &[Row], job: u32) -> Turn
    ensures { result ≡ turn_in job (slice_get rows.now job) }
{
    match rows.get(job as usize) {
        Some(row) => Turn {
            priority: row.priority,
            moment: row.scheduled,
            job,
        },
        None => Turn {
            priority: 0,
            moment: 0,
            job,
        },
    }
}

fn silence(rows: &[Row], job: u32) -> Silence
    ensures { result ≡ silence_in job (slice_get rows.now job) }
{
    match rows.get(job as usize) {
        Some(row) => Silence {
            beat: row.beat,
            job,
        },
        None => Silence { beat: 0, job },
    }
}

/// The list of the available jobs of a queue.
pub fn waiting(queue: QueueName) -> u32
    ensures { result ≡ waiting_list queue }
{
    match queue {
        QueueName::Hog => 0,
        QueueName::Fetch => 1,
    }
}

/// Puts a job that stands in no list into the list of its row, if it has one.
pub fn place(lists: &mut Lists, rows: &[Row], job: u32)
    requires { IsListingBut job rows.now lists.old }
    ensures { IsListing rows.now lists.new }
{
    let row = &rows[job as usize];
    match row.state {
        JobState::Available => lists.insert_by(waiting(row.queue), job, &ByTurn { rows }),
        JobState::Running => lists.insert_by(RUNNING, job, &BySilence { rows }),
        JobState::Completed => {}
        JobState::Failed => {}
    }
}

/// Moves a job whose row was written from the list where it stood to the one where it stands now, if there is one.
pub fn move_job(lists: &mut Lists, rows: &[Row], job: u32)
    requires { IsListingBefore job rows.now lists.old }
    ensures { IsListing rows.now lists.new }
{
    lists.unlink(job);
    place(lists, rows, job);
}
