//! Descriptors: what is kept of a table beside its files, and the one spelling of each. Bytes are read exactly where they
//! spell a stone; else the first broken rule is named by its offset.
#![tactic(auto)]

mod changes;
mod columns;
mod decoding;
mod earlier;
mod encoding;
mod fields;
mod head;
mod laws;
mod listing;
mod spelled;
mod stone;
mod tablets;

pub use decoding::decode;
pub use encoding::encode;
pub use laws::{descriptor_laws, stones_stay_lawful};
pub use stone::Stone;
pub use tablets::Tablets;
