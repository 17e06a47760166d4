// Texts: units that stand in memory or elsewhere. The rules of names and paths are code over any text, written once.
ghost use Rattle.std.specs.Prelude.{◌≡◌, true, false, ◌+◌, ◌-◌, ◌≤◌, ◌<◌, List, ℕ, length, get_or, take, drop, eqb};
ghost use Rattle.unc.specs.names.Names.{same_name, backslash, nothing_or_dots, good_component, good_name};
ghost use Rattle.unc.specs.names.Code.{SameWithin, plain_length, good_count, form_within};
ghost use Rattle.unc.specs.names.Paths.{leads, without_trail, matches};

use crate::names::{
    self, BACKSLASH, DOT, Form, NAME_UNITS, PathError, difference, is_plain, same_unit,
};

pub trait Text: Copy {
    ghost units: { Self → List ℕ };

    fn len(self) -> usize
        ensures { result ≡ length (units self) };

    // Unit k.
    fn unit(self, k: usize) -> u16
        requires { k < length (units self) }
        ensures { result ≡ get_or (units self) k 0 };

    // The units from place `from` up to place `to`.
    fn part(self, from: usize, to: usize) -> Self
        requires { (from ≤ to) × (to ≤ length (units self)) }
        ensures { units result ≡ take (to - from) (drop from (units self)) };
}

impl Text for &[u16] {
    ghost units = { λ s. s.now };

    fn len(self) -> usize {
        self.len()
    }

    fn unit(self, k: usize) -> u16 {
        self[k]
    }

    fn part(self, from: usize, to: usize) -> Self {
        &self[from..to]
    }
}

// A text that is compared with names in memory.
pub trait Name: Text {
    fn equals(self, name: &[u16]) -> bool
        ensures { result ≡ same_name name.now (Self.units self) };
}

impl Name for &[u16] {
    fn equals(self, name: &[u16]) -> bool {
        names::same_name(name, self)
    }
}

// Units of a name that are compared at once, folded.
const BLOCK: usize = 8;

// Whether the n units from `at` on are equal, folded or as they stand. The loop has no exit, so that it runs over many units at a time.
#[tactic(auto, using(crate::proofs::names::WithinLaws::block))]
fn same_block<A: Text, B: Text>(a: A, b: B, at: usize, n: usize, folds: bool) -> bool
    requires { (at + n < 18446744073709551616) × ((at + n ≤ length (A.units a)) × (at + n ≤ length (B.units b))) }
    ensures { (result ≡ true → SameWithin (A.units a) (B.units b) at (at + n)) × (folds ≡ true → SameWithin (A.units a) (B.units b) at (at + n) → result ≡ true) }
{
    let mut differ: u16 = 0;
    for k in 0..n {
        differ |= difference(a.unit(at + k), b.unit(at + k), folds);
    }
    differ == 0
}

// Whether two names of one length, of n units or more, are equal, folded or as they stand: n at a time from the last on, since paths of one namespace begin alike.
#[tactic(auto, using(crate::proofs::names::WithinLaws::blocks))]
pub(crate) fn same_blocks<A: Text, B: Text>(a: A, b: B, n: usize, folds: bool) -> bool
    requires { (length (A.units a) ≡ length (B.units b)) × ((0 < n) × (n ≤ length (A.units a))) }
    ensures { (result ≡ true → same_name (A.units a) (B.units b) ≡ true) × (folds ≡ true → result ≡ same_name (A.units a) (B.units b)) }
{
    let mut left = a.len();
    // the first block overlaps the second where n does not divide the length, so that every block has n units: no iterator of blocks has this
    while 0 < left {
        let at = left.saturating_sub(n);
        if !same_block(a, b, at, n, folds) {
            return false;
        }
        left = at;
    }
    true
}

// Whether two names of one length are equal, unit by unit from the last on.
#[tactic(auto, using(crate::proofs::names::WithinLaws::one_by_one))]
fn same_short<A: Text, B: Text>(a: A, b: B) -> bool
    requires { length (A.units a) ≡ length (B.units b) }
    ensures { result ≡ same_name (A.units a) (B.units b) }
{
    for i in (0..a.len()).rev() {
        let x = a.unit(i);
        let y = b.unit(i);
        // most units are the same, and need no folding
        if x != y && !same_unit(x, y) {
            return false;
        }
    }
    true
}

// Whether two names of one length are equal: by blocks where they have one, so that it takes little longer where they differ in their first units only.
pub fn same_units<A: Text, B: Text>(a: A, b: B) -> bool
    requires { length (A.units a) ≡ length (B.units b) }
    ensures { result ≡ same_name (A.units a) (B.units b) }
{
    if a.len() < BLOCK {
        same_short(a, b)
    } else {
        same_blocks(a, b, BLOCK, true)
    }
}

#[tactic(auto, using(crate::proofs::names::NameLaws::same_name_unlike))]
pub fn same_name<A: Text, B: Text>(a: A, b: B) -> bool
    ensures { result ≡ same_name (A.units a) (B.units b) }
{
    a.len() == b.len() && same_units(a, b)
}

// The place of the first unit from `from` on that may not stand in a component, or the end.
#[tactic(auto, using(crate::proofs::names::PieceLaws::scan))]
pub fn plain_end<T: Text>(s: T, from: usize) -> usize
    ensures { result ≡ from + plain_length (drop from (T.units s)) }
{
    let n = s.len();
    for i in from..n {
        if !is_plain(s.unit(i)) {
            return i;
        }
    }
    from.max(n)
}

// Empty, "." or "..".
#[tactic(auto, using(crate::proofs::names::NameLaws::dots))]
pub fn nothing_or_dots<T: Text>(s: T) -> bool
    ensures { result ≡ nothing_or_dots (T.units s) }
{
    let n = s.len();
    n <= 2
        && match n {
            0 => true,
            1 => s.unit(0) == DOT,
            _ => s.unit(0) == DOT && s.unit(1) == DOT,
        }
}

#[tactic(auto, using(crate::proofs::names::PieceLaws::component))]
pub fn good_component<T: Text>(s: T) -> bool
    ensures { result ≡ good_component (T.units s) }
{
    !nothing_or_dots(s) && s.len() <= plain_end(s, 0)
}

// A name that is no path: one good component of at most 255 units.
#[tactic(auto, using(crate::proofs::names::PieceLaws::name_of_length))]
pub fn good_name<T: Text>(s: T) -> bool
    ensures { result ≡ good_name (T.units s) }
{
    s.len() <= NAME_UNITS && good_component(s)
}

// The number of pieces between backslashes where each is a good component, else 0.
#[tactic(auto, using(crate::proofs::names::PieceLaws::count))]
pub fn good_count<T: Text>(s: T) -> usize
    ensures { result ≡ good_count 0 (T.units s) }
{
    let units = s.len();
    let mut from = 0;
    let mut n = 0;
    // a turn for each piece, however long: no iterator goes by the pieces of any text
    loop {
        let to = plain_end(s, from);
        if nothing_or_dots(s.part(from, to)) {
            return 0;
        }
        n += 1;
        if units <= to {
            return n;
        }
        if s.unit(to) != BACKSLASH {
            return 0;
        }
        from = to + 1;
    }
}

// Whether unit k of a text is a backslash.
fn parts_at<T: Text>(s: T, k: usize) -> bool
    ensures { result ≡ eqb (get_or (T.units s) k 0) backslash }
{
    k < s.len() && s.unit(k) == BACKSLASH
}

// The leading backslashes of a path.
#[tactic(auto, unfolding(crate::specs::names::Paths::leads, laws::specs::Choice::choose))]
pub fn lead<T: Text>(s: T) -> usize
    ensures { result ≡ leads (T.units s) }
{
    if !parts_at(s, 0) {
        0
    } else if !parts_at(s, 1) {
        1
    } else {
        2
    }
}

// The end of what stands from `from` on, one trailing backslash dropped.
#[tactic(auto, using(crate::proofs::names::FormLaws::trail))]
pub fn trail<T: Text>(s: T, from: usize) -> usize
    ensures { result ≡ from + length (without_trail (drop from (T.units s))) }
{
    let n = s.len();
    if n <= from {
        from
    } else if s.unit(n - 1) == BACKSLASH {
        n - 1
    } else {
        n
    }
}

// The form of a text as a path of at most `most` units normalised.
#[tactic(auto, using(crate::proofs::names::FormLaws::form))]
pub fn form_within<T: Text>(s: T, most: usize) -> Result<Form, PathError>
    ensures { result ≡ form_within most (T.units s) }
{
    let from = lead(s);
    if from == 0 {
        return Err(PathError::Bad);
    }
    let to = trail(s, from);
    let components = good_count(s.part(from, to));
    if components == 0 {
        return Err(PathError::Bad);
    }
    let units = to - from + 1;
    if most < units {
        return Err(PathError::Long);
    }
    Ok(Form { units, components })
}

// Whether a component of the path ends where a prefix of this length does: if so the prefix's units decide whether it matches.
#[tactic(auto, using(crate::proofs::names::MatchLaws::ends))]
pub fn ends_component<P: Text, S: Text>(prefix: P, path: S) -> bool
    ensures { (result ≡ false → matches (P.units prefix) (S.units path) ≡ false) × (result ≡ true → (length (P.units prefix) ≤ length (S.units path)) × (same_name (P.units prefix) (take (length (P.units prefix)) (S.units path)) ≡ matches (P.units prefix) (S.units path))) }
{
    let n = prefix.len();
    n <= path.len() && (n == path.len() || path.unit(n) == BACKSLASH)
}

// Whether a prefix matches a path by whole components.
pub fn matches<P: Text, S: Text>(prefix: P, path: S) -> bool
    ensures { result ≡ matches (P.units prefix) (S.units path) }
{
    ends_component(prefix, path) && same_units(prefix, path.part(0, prefix.len()))
}
