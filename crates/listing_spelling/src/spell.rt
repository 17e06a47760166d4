// Texts and numbers as they are spelled in a listing: document 01, "The listing".
ghost use Rattle.std.specs.Prelude.{◌≡◌, ◌+◌, ◌≤◌, ◌<◌, length};
ghost use Rattle.listing_spelling.specs.spell.Spelling.{stands, digit_unit, hex_units, spelled_unit, spelled, decimal, Put};

pub(crate) const TILDE: u16 = b'~' as u16;

// Whether a unit stands as it is.
#[tactic(auto, unfolding(crate::specs::spell::Spelling::stands))]
pub fn stands(u: u16) -> bool
    ensures { result ≡ stands u }
{
    33 <= u && u < TILDE
}

// The unit of a hex digit.
#[tactic(auto, unfolding(crate::specs::spell::Spelling::digit_unit, laws::specs::Choice::choose))]
fn digit(d: u16) -> u16
    requires { d < 16 }
    ensures { result ≡ digit_unit d }
{
    if d < 10 { 48 + d } else { 55 + d }
}

// Four hex digits into a lent buffer from `at` on; answers where they end.
pub fn put_hex(out: &mut [u16], at: usize, u: u16) -> usize
    requires { at + 4 ≤ length out.old }
    ensures { Put out.old at (hex_units u) out.new result }
{
    let units = [
        digit(u / 4096 % 16),
        digit(u / 256 % 16),
        digit(u / 16 % 16),
        digit(u % 16),
    ];
    memory::copy_units(out, at, &units);
    at + 4
}

fn put_unit(out: &mut [u16], at: usize, u: u16) -> usize
    requires { at + length (spelled_unit u) ≤ length out.old }
    ensures { Put out.old at (spelled_unit u) out.new result }
{
    if stands(u) {
        memory::put_unit(out, at, u);
        at + 1
    } else {
        memory::put_unit(out, at, TILDE);
        put_hex(out, at + 1, u)
    }
}

// A text spelled into a lent buffer from `at` on; answers where it ends.
pub fn put_spelled(out: &mut [u16], at: usize, s: &[u16]) -> usize
    requires { at + length (spelled s.now) ≤ length out.old }
    ensures { Put out.old at (spelled s.now) out.new result }
{
    let mut end = at;
    for u in s {
        end = put_unit(out, end, *u);
    }
    end
}

#[tactic(auto, unfolding(crate::specs::spell::Spelling::spelled_unit, crate::specs::spell::Spelling::hex_units, laws::specs::Choice::choose))]
fn unit_units(u: u16) -> usize
    ensures units { result ≡ length (spelled_unit u) }
    ensures few { result ≤ 5 }
{
    if stands(u) { 1 } else { 5 }
}

// How many units a text has spelled.
pub fn spelled_units(s: &[u16]) -> usize
    requires { length s.now ≤ 65536 }
    ensures { result ≡ length (spelled s.now) }
{
    s.iter().map(|u| unit_units(*u)).sum()
}

// A number in decimal into a lent buffer from `at` on; answers where it ends.
pub fn put_decimal(out: &mut [u16], at: usize, n: u32) -> usize
    requires { at + length (decimal n) ≤ length out.old }
    ensures { Put out.old at (decimal n) out.new result }
{
    if n < 10 {
        memory::put_unit(out, at, 48 + n as u16);
        at + 1
    } else {
        let end = put_decimal(out, at, n / 10);
        memory::put_unit(out, end, 48 + (n % 10) as u16);
        end + 1
    }
}

// How many digits a number has.
pub fn decimal_units(n: u32) -> usize
    ensures { result ≡ length (decimal n) }
{
    if n < 10 { 1 } else { decimal_units(n / 10) + 1 }
}
