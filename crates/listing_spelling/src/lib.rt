// Texts and numbers as a listing spells them: document 01, "The listing".
// - spell: written
// - unspell: read; no other spelling is read
#![tactic(auto)]

pub mod spell;
pub mod unspell;
