//! The native functions of Hog.
//! Stands on hog_value, hog_json and hog_extras.
//! specs/ says what each native gives (Natives, Called), what is made of a reply or a thrown kind (Cells), and what texts are cut into (Texts).
//! Above, contracts cite `called`, `response` and `thrown`; `call_native` answers exactly what `called` says, with exact charges.
//! No native looks into a function cell, so each definition goes over heaps with any content of functions.
#![tactic(auto)]

pub mod call;
mod date_natives;
mod given;
mod list_natives;
pub mod making;
mod product;
mod stop;
mod text_natives;
mod texts;

pub use call::{CallStop, NativeAnswer, call_native};
pub use making::{make_first, make_reply, make_thrown};
