// Units and names on lent units: document 01, "Paths".
ghost use Rattle.std.specs.Prelude.{◌≡◌, true, length};
ghost use Rattle.unc.specs.names.Names.{folded, same_unit, same_name, plain, good_name};

use crate::text::{self, same_blocks, same_units};

pub const BACKSLASH: u16 = 92;

const SLASH: u16 = 47;

pub const DOT: u16 = 46;

// Units of a name that are compared at once as they stand.
const LONG_BLOCK: usize = 16;

// The most units of a name.
pub const NAME_UNITS: usize = 255;

// The form of a good path: its length normalised, and its number of components.
#[derive(Clone, Copy, Debug, PartialEq, Eq)]
pub struct Form {
    pub units: usize,
    pub components: usize,
}

// Why a text has no form as a path.
#[derive(Clone, Copy, Debug, PartialEq, Eq)]
pub enum PathError {
    Bad,
    // good, but too long normalised
    Long,
}

// The unit by which a unit is compared.
#[tactic(auto, using(crate::proofs::names::NameLaws::folds))]
pub fn fold(u: u16) -> u16
    ensures { result ≡ folded u }
{
    if matches!(u, 65..=90) { u + 32 } else { u }
}

#[tactic(auto, using(crate::proofs::names::NameLaws::same_unit_lem))]
pub fn same_unit(a: u16, b: u16) -> bool
    ensures { result ≡ same_unit a b }
{
    fold(a) == fold(b)
}

// The bits in which two units differ as they are compared: 0 where they are equal. A small letter differs from its capital in bit 5 only.
#[tactic(auto, using(crate::proofs::names::UnitLaws::bits))]
fn unlike(a: u16, b: u16) -> u16
    ensures { (result ≡ 0 → same_unit a b ≡ true) × (same_unit a b ≡ true → result ≡ 0) }
{
    let bits = a ^ b;
    if matches!(a | 32, 97..=122) {
        bits & 65503
    } else {
        bits
    }
}

// The bits in which two units differ, folded or as they stand. Where there are none the units are equal; folded, equal units have none.
#[tactic(auto, using(crate::proofs::names::UnitLaws::xor_same))]
pub(crate) fn difference(a: u16, b: u16, folds: bool) -> u16
    ensures { (result ≡ 0 → same_unit a b ≡ true) × (folds ≡ true → same_unit a b ≡ true → result ≡ 0) }
{
    if folds { unlike(a, b) } else { a ^ b }
}

// Equal names in memory.
pub fn same_name(a: &[u16], b: &[u16]) -> bool
    ensures { result ≡ same_name a.now b.now }
{
    text::same_name(a, b)
}

// same_name for names of one length that are likely to be the same: as they stand first, which needs no folding.
pub fn same_likely(a: &[u16], b: &[u16]) -> bool
    requires { length a.now ≡ length b.now }
    ensures { result ≡ same_name a.now b.now }
{
    (LONG_BLOCK <= a.len() && same_blocks(a, b, LONG_BLOCK, false)) || same_units(a, b)
}

// Whether a unit may stand in a component.
#[tactic(auto, unfolding(crate::specs::names::Names::plain))]
pub fn is_plain(u: u16) -> bool
    ensures { result ≡ plain u }
{
    u != BACKSLASH && u != SLASH && u != 0
}

// A name that is no path: one good component of at most 255 units.
pub fn good_name(s: &[u16]) -> bool
    ensures { result ≡ good_name s.now }
{
    text::good_name(s)
}
