// Components of a path, and prefix match: document 01, "Paths".
ghost use Rattle.std.specs.Prelude.{◌≡◌, length};
ghost use Rattle.unc.specs.names.Paths.{first_of, matches, is_sysvol};

use crate::names::{BACKSLASH, same_likely, same_name};
use crate::text;

const SYSVOL: [u16; 6] = [83, 89, 83, 86, 79, 76];

const NETLOGON: [u16; 8] = [78, 69, 84, 76, 79, 71, 79, 78];

// Where the first `k` components of a path end: they are the units before that place, and the component after them starts one past it.
#[tactic(auto, using(crate::proofs::names::PieceLaws::first))]
pub fn first_end(s: &[u16], k: usize) -> usize
    ensures { result ≡ length (first_of k s.now) }
{
    let mut left = k;
    for (i, u) in s.iter().enumerate() {
        if *u == BACKSLASH {
            if left == 0 {
                return i;
            }
            left -= 1;
        }
    }
    s.len()
}

// Whether a prefix matches a path by whole components.
pub fn matches(prefix: &[u16], path: &[u16]) -> bool
    ensures { result ≡ matches prefix.now path.now }
{
    // not text::matches: compared as it stands first, which is faster for long names that match
    text::ends_component(prefix, path) && same_likely(prefix, &path[..prefix.len()])
}

// Whether the second component is SYSVOL or NETLOGON.
#[tactic(auto, using(crate::proofs::names::SpanLaws::second))]
pub fn is_sysvol(path: &[u16]) -> bool
    ensures { result ≡ is_sysvol path.now }
{
    let a = first_end(path, 1);
    if path.len() <= a {
        return false;
    }
    let name = &path[a + 1..first_end(path, 2)];
    same_name(name, &SYSVOL) || same_name(name, &NETLOGON)
}
