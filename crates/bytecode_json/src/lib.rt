//! The text of a code: the compact JSON array of its elements behind the header `"_H", 1`.
//! Stands on bytecode_builder, bytecode_front, plain_json, hog_ops, hog_value and serde_json.
//! Above, `decode` gives exactly the code or the first refusal of a text (`decode_of`), and
//! `encode` the text that decodes as its code.
#![tactic(auto)]

mod decoder;
mod encoder;

pub use bytecode_front::stop::CodeStop;
pub use decoder::decode;
pub use encoder::encode;
