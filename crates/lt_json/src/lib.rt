//! Schemas as JSON texts.
#![tactic(auto)]

mod json;

pub use json::{SchemaError, schema_from_json};
