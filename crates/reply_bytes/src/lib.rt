// The bytes of a reply: units, texts, and the fixed parts of header and entries.
// - texts: units, texts, names and paths in bytes, at any offset
// - reader: a thin reader over a reply: its header, and the fixed part of an entry
#![tactic(auto)]

pub mod reader;
pub mod texts;
