//! Shown texts, JSON texts, reading JSON into cells, kept JSON texts, and lines.
//! Stands on hog_value, and on the kit's serde_json and json.
//! specs/ says what the texts are (Texts), what is read (Reading), what is nulled (Nulled), and the lines (Lines).
//! Above, contracts cite `shown`, `json_text_of`, `json_cells`, `nulled`, `trace_line` and `end_line`.
//! No call looks into a function cell, so each definition goes over heaps with any content of functions.
#![tactic(auto)]

mod builder;
mod kept;
mod lines;
mod nulled;
mod reading;
mod style;
mod texts;
mod walk;

pub use kept::{GlobalsStop, GlobalsText, globals_of, globals_text, nulled_text};
pub use lines::{end_line, trace_line};
pub use reading::{JsonStop, json_read};
pub use texts::{json_text, show};
