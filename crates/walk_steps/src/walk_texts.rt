// The texts of a walk, lent as one slice: the path's room, the room of the path tried, and more that is left alone.
ghost use Rattle.std.specs.Prelude.{◌≡◌, ◌++◌, ◌⊎◌, ◌+◌, ◌≤◌, length, take, replicate};
ghost use Rattle.laws.specs.Lists.{pasted, part};
ghost use Rattle.unc.specs.names.Paths.{replaced};
ghost use Rattle.unc.specs.names.Code.{written_within};
ghost use Rattle.walk_steps.specs.walk_texts.Code.{with_tried};

// The units of a room.
const ROOM: usize = 256;

// `count` units from `from` to `at`, which do not overlap. Not the slice's copy_within, which needs C's memmove.
fn copy_apart(texts: &mut [u16], from: usize, at: usize, count: usize)
    requires { (from + count ≤ length texts.old) × ((at + count ≤ length texts.old) × ((from + count ≤ at) ⊎ (at + count ≤ from))) }
    ensures { texts.new ≡ pasted texts.old at (part from count texts.old) }
{
    for i in 0..count {
        texts[at + i] = texts[from + i];
    }
}

// The path, its first `k` units replaced by the target, into the room of the path tried. One of more than 256 units is told before
// anything is written.
pub fn put_tried(texts: &mut [u16], len: usize, k: usize, target: &[u16]) -> Option<usize>
    requires { (512 ≤ length texts.old) × ((len ≤ 256) × (k ≤ len)) }
    ensures answer { result ≡ written_within 256 (replaced target.now k (take len texts.old)) }
    ensures texts { texts.new ≡ with_tried (replaced target.now k (take len texts.old)) texts.old }
{
    let rest = len - k;
    if ROOM - rest < target.len() {
        return None;
    }
    let n = target.len() + rest;
    memory::copy_units(texts, ROOM, target);
    copy_apart(texts, k, ROOM + target.len(), rest);
    memory::clear_units(texts, ROOM + n, ROOM - n);
    Some(n)
}

// The path tried becomes the path, and there is no path tried.
pub fn take_tried(texts: &mut [u16])
    requires { 512 ≤ length texts.old }
    ensures { texts.new ≡ pasted texts.old 0 (part 256 256 texts.old ++ replicate 256 0) }
{
    copy_apart(texts, ROOM, 0, ROOM);
    memory::clear_units(texts, ROOM, ROOM);
}
