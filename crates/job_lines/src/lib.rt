//! What a job shows, said by its input alone. Nothing here runs.
//! Stands on hog_jobs (rows that agree with what their sources mean), hog_meaning (more replies), vm_requests (requests and
//! their replies), hog_program and cyclotron_jobs. specs/Lines.antt says which replies a job gets and what it shows on them.
//! Above, `rows_show_lines` is used: a completed row with listed answers shows just what its input says; and `few_replies`:
//! a job that waits for a reply has had fewer than a run may ask for.
#![tactic(auto)]

pub mod laws;
