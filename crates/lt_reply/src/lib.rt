//! What the answers to a session's lines look like: each reply has one text.
#![tactic(auto)]

mod printing;
mod values;

pub use printing::{put_client, put_end, put_reply, reply_text};
