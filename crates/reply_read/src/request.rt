// The request of a referral: document 01, "Layouts".
ghost use Rattle.std.specs.Prelude.{◌≡◌, [], ◌∷◌, ◌+◌, ◌*◌, ◌≤◌, ◌<◌, length};
ghost use Rattle.laws.specs.Lists.{pasted};
ghost use Rattle.reply_read.specs.referral.Request.{bytes_of, request};
ghost use Rattle.reply_read.specs.referral.Code.{asked};
ghost use Rattle.reply_read.specs.referral.Request.{buffer_with};

// The least and the most bytes of a reply that may be asked for.
pub const LEAST_SIZE: u32 = 1024;

pub const MOST_SIZE: u32 = 57344;

// The number of bytes of a request for a name.
#[tactic(auto, using(crate::proofs::referral::RequestLaws::length_request))]
pub fn request_length(name: &[u16]) -> usize
    ensures { result ≡ length (request name.now) }
{
    4 + 2 * name.len()
}

// A unit as two bytes.
fn put_pair(out: &mut [u8], at: usize, u: u16)
    requires { at + 1 < length out.old }
    ensures { out.new ≡ pasted out.old at (bytes_of (u ∷ [])) }
{
    let [low, high] = u.to_le_bytes();
    out[at] = low;
    out[at + 1] = high;
}

// Units as bytes, one after another.
fn put_units(out: &mut [u8], at: usize, name: &[u16])
    requires { at + 2 * length name.now ≤ length out.old }
    ensures { out.new ≡ pasted out.old at (bytes_of name.now) }
{
    for (i, u) in name.iter().enumerate() {
        put_pair(out, at + 2 * i, *u);
    }
}

// The request for a name, the empty one for domains, into a lent buffer. A buffer that is too short is told before anything is written.
#[tactic(auto, using(crate::proofs::referral::RequestLaws::length_request))]
pub fn request(name: &[u16], out: &mut [u8]) -> Option<usize>
    ensures answer { result ≡ asked (length out.old) name.now }
    ensures buffer { out.new ≡ buffer_with name.now out.old }
{
    let n = request_length(name);
    if out.len() < n {
        return None;
    }
    put_pair(out, 0, 4);
    put_units(out, 2, name);
    put_pair(out, n - 2, 0);
    Some(n)
}
