//! The JSON forms of the parts of a saved state: values, cells, frames, throw frames, upvalues and what a run shows.
//! Stands on plain_json, vm_frames, hog_value, indexmap and serde_json.
//! specs/Shapes.antt says how arrays and numbers are read, Values.antt what values and cells look like, Calls.antt the
//! parts of a machine, and Shown.antt what a run shows. Each part is read back from what was written of it, which is plain.
//! Above, vm_state reads and writes whole states by these forms.
#![tactic(auto)]

pub mod calls;
pub mod forms;
pub mod shown;
pub mod stop;
pub mod upvalues;
pub mod values;

pub use forms::Json;
pub use stop::ReadStop;
