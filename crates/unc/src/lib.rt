// Names, components and paths: document 01, "Paths".
// - names: units, equal names in memory, good names
// - path_form: a path normalised, and its components counted
// - prefix: components of a path, and whether a prefix matches it
// - text: the trait of texts, and the rules of names and paths over any text
#![tactic(auto)]

pub mod names;
pub mod path_form;
pub mod prefix;
pub mod text;
