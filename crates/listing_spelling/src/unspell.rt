// What spelled texts and numbers say: document 01, "The listing". No other spelling is read.
ghost use Rattle.std.specs.Prelude.{◌≡◌, true, ◌+◌, ◌≤◌, ◌<◌, length};
ghost use Rattle.laws.specs.Listed.{same_list};
ghost use Rattle.listing_spelling.specs.spell.Spelling.{decimal, Put};
ghost use Rattle.listing_spelling.specs.unspell.Reading.{digit_of, hex_of, unspelled, is_spelled, hex_digit};
ghost use Rattle.listing_spelling.specs.unspell.Code.{spelled_form, hex_digits, is_escape, small_value, decimal_form};

use crate::spell::{TILDE, put_decimal, stands};

// Whether a unit is an upper-case hex digit.
#[tactic(auto, unfolding(crate::specs::unspell::Reading::hex_digit))]
fn hex_digit(u: u16) -> bool
    ensures { result ≡ hex_digit u }
{
    matches!(u, 48..=57 | 65..=70)
}

// Whether a text begins with four hex digits.
fn hex_digits(s: &[u16]) -> bool
    requires { 4 ≤ length s.now }
    ensures { result ≡ hex_digits s.now }
{
    s[..4].iter().all(|u| hex_digit(*u))
}

// The value of a hex digit.
#[tactic(auto, unfolding(crate::specs::unspell::Reading::digit_of, laws::specs::Choice::choose))]
fn digit_of(u: u16) -> u32
    ensures value { result ≡ digit_of u }
    ensures small { result < 65536 }
{
    u32::from(u.saturating_sub(if u < 58 { 48 } else { 55 }))
}

// The unit that four digits say.
#[tactic(auto, unfolding(crate::specs::unspell::Reading::hex_of))]
fn hex_of(s: &[u16]) -> u32
    requires { 4 ≤ length s.now }
    ensures { result ≡ hex_of s.now }
{
    4096 * digit_of(s[0]) + (256 * digit_of(s[1]) + (16 * digit_of(s[2]) + digit_of(s[3])))
}

// Whether a text begins with the escape of a unit that does not stand as it is.
#[tactic(auto, using(crate::proofs::unspell::HexLaws::hexes_small), unfolding(crate::specs::unspell::Code::is_escape))]
fn is_escape(s: &[u16]) -> bool
    ensures { result ≡ is_escape s.now }
{
    s.len() >= 5 && s[0] == TILDE && hex_digits(&s[1..]) && !stands(hex_of(&s[1..]) as u16)
}

// Whether a text is a spelling, and of how many units.
pub fn spelled_form(s: &[u16]) -> Option<usize>
    ensures { result ≡ spelled_form s.now }
{
    let mut n = 0;
    let mut rest = s;
    while let Some((u, tail)) = rest.split_first() {
        rest = if stands(*u) {
            tail
        } else if is_escape(rest) {
            &rest[5..]
        } else {
            return None;
        };
        n += 1;
    }
    Some(n)
}

// What a spelling says, into a lent buffer from `at` on; answers where it ends.
pub fn unspell(s: &[u16], out: &mut [u16], at: usize) -> usize
    requires { (is_spelled s.now ≡ true) × (at + length (unspelled s.now) ≤ length out.old) }
    ensures { Put out.old at (unspelled s.now) out.new result }
{
    let mut end = at;
    let mut rest = s;
    while let Some((u, tail)) = rest.split_first() {
        if *u == TILDE {
            memory::put_unit(out, end, hex_of(tail) as u16);
            rest = &tail[4..];
        } else {
            memory::put_unit(out, end, *u);
            rest = tail;
        }
        end += 1;
    }
    end
}

// Whether a text is the decimal of a number.
fn is_decimal(s: &[u16], n: u32) -> bool
    ensures { result ≡ same_list (decimal n) s.now }
{
    let mut room: [u16; 10] = [0; 10];
    let end = put_decimal(&mut room, 0, n);
    &room[..end] == s
}

// The number that digits say, if it has 32 bits.
fn value_of(s: &[u16]) -> Option<u32>
    ensures { result ≡ small_value s.now }
{
    let mut n: u32 = 0;
    for u in s {
        n = n
            .checked_mul(10)?
            .checked_add(u32::from(u.saturating_sub(48)))?;
    }
    Some(n)
}

// Whether a text is the decimal of a number of 32 bits, and of which.
#[tactic(auto, unfolding(crate::specs::unspell::Code::small_value, crate::specs::unspell::Code::decimal_form, crate::specs::unspell::Code::is_decimal, laws::specs::Choice::choose))]
pub fn decimal_form(s: &[u16]) -> Option<u32>
    ensures { result ≡ decimal_form s.now }
{
    value_of(s).filter(|n| is_decimal(s, *n))
}
