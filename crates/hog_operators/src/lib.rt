//! What Hog's operators, access and setting give, and the first cells of a run.
//! Stands on hog_meaning, whose specs/Operators.antt says what each gives, and on hog_library, hog_json, hog_tree and hog_value.
//! Above, the machine's contracts cite `operated`, `accessed`, `key_of`, `assigned`, `dictionary_made` and `first_cells`.
//! Each call answers exactly what its definition says, with exact charges; after a refusal heap and meter are as before.
//! No call looks into a function cell.
#![tactic(auto)]

mod dictionary;
mod first;
mod inside;
mod numbers;
mod operators;
mod order;
mod reading;
mod setting;

pub use dictionary::make_dictionary;
pub use first::make_first_cells;
pub use operators::operate;
pub use reading::{access, read_key};
pub use setting::assign;
