// Writing units into lent memory: one unit, a piece, zeros, a text in its room. What lies outside the place that is named stays.
// Their contracts say by `pasted` what they leave of the whole memory, as the contracts above do.
#![tactic(auto)]

ghost use Rattle.std.specs.Prelude.{◌≡◌, [], ◌∷◌, ◌+◌, ◌≤◌, ◌<◌, length, replicate};
ghost use Rattle.laws.specs.Lists.{pasted, roomed};

pub fn put_unit(dst: &mut [u16], at: usize, v: u16)
    requires { at < length dst.old }
    ensures { dst.new ≡ pasted dst.old at (v ∷ []) }
{
    dst[at] = v;
}

// Not the slice's copy_from_slice, which needs C's memmove: the library asks for memcpy and memset alone.
pub fn copy_units(dst: &mut [u16], at: usize, src: &[u16])
    requires { at + length src.now ≤ length dst.old }
    ensures { dst.new ≡ pasted dst.old at src.now }
{
    for (i, unit) in src.iter().enumerate() {
        dst[at + i] = *unit;
    }
}

pub fn clear_units(dst: &mut [u16], at: usize, count: usize)
    requires { at + count ≤ length dst.old }
    ensures { dst.new ≡ pasted dst.old at (replicate count 0) }
{
    dst[at..at + count].fill(0);
}

// A text into the room of `room` units at `at`, with zeros after it.
pub fn put_text(dst: &mut [u16], at: usize, room: usize, text: &[u16])
    requires { (length text.now ≤ room) × (at + room ≤ length dst.old) }
    ensures { dst.new ≡ pasted dst.old at (roomed room text.now) }
{
    copy_units(dst, at, text);
    clear_units(dst, at + text.len(), room - text.len());
}
