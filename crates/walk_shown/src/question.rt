// What a host is shown of a walk: the texts and numbers of the question that waits, or of its end, into a lent buffer.
ghost use Rattle.std.specs.Prelude.{◌≡◌, true, [], ◌≤◌, ◌<◌, length, get_or, Err};
ghost use Rattle.unc.specs.names.Paths.{components};
ghost use Rattle.cache.specs.order.Order.{good_prefix};
ghost use Rattle.cache.specs.order.Memory.{referrals, domains, decode};
ghost use Rattle.cache_store.specs.entry_after_reply.Stored.{prefixed};
ghost use Rattle.walk_steps.specs.steps.Steps.{domain_named, name_asked};
ghost use Rattle.walk_steps.specs.steps.Held.{caches_of, core_of, question_of};
ghost use Rattle.walk_steps.specs.rounds.Code.{dcs_named, targets_under};
ghost use Rattle.walk_shown.specs.question.Shown.{given, shows, shows_some, dc_at_place, target_at_place, party_of, party_text};
ghost use Rattle.walk_shown.specs.question.Code.{root_party, Showable};
ghost use Rattle.walk_shown.specs.question.Shown.{party_call, name_call, shown_number};

use walk_calls::resting::{caches_in_order, question};
use walk_form::held::{BOOT, ROOM, Walk};
use walk_steps::steps::{Asking, Kind, Next};

// Why a text or numbers are not put into the buffer.
#[derive(Clone, Copy, Debug, PartialEq, Eq)]
pub enum ShowError {
    NotInOrder,
    OutOfForm,
    ShortBuffer,
    NoEntry,
}

#[tactic(auto, unfolding(crate::specs::question::Shown::shown_number))]
impl From<ShowError> for u32 {
    ghost from_gives = { λ error n. n ≡ shown_number (Err error) };

    fn from(error: ShowError) -> u32 {
        match error {
            ShowError::NotInOrder => 4,
            ShowError::OutOfForm => 5,
            ShowError::ShortBuffer => 10,
            ShowError::NoEntry => 27,
        }
    }
}

pub fn put(text: &[u16], out: &mut [u16]) -> Result<u16, ShowError>
    requires { length text.now ≤ 256 }
    ensures { given result out.new ≡ shows text.now out.old }
{
    if out.len() < text.len() {
        return Err(ShowError::ShortBuffer);
    }
    memory::copy_units(out, 0, text);
    Ok(text.len() as u16)
}

// The name of a DC of the path's domain.
fn put_dc(doms: &[u16], path: &[u16], party: u16, out: &mut [u16]) -> Result<u16, ShowError>
    requires { (good_prefix path.now ≡ true) × (party < dcs_named path.now doms.now) }
    ensures { given result out.new ≡ shows_some (dc_at_place party (domain_named (get_or (components path.now) 0 []) (decode domains doms.now))) out.old }
{
    let i = cache_lookup::find_domain(doms, walk_steps::steps::host(path)).ok_or(
        ShowError::NoEntry,
    )?;
    put(cache_lookup::dc(doms, i, party as usize), out)
}

// The path of a target of the entry of this prefix.
fn put_target(refs: &[u16], prefix: &[u16], party: u16, out: &mut [u16]) -> Result<u16, ShowError>
    requires { party < targets_under prefix.now refs.now }
    ensures { given result out.new ≡ shows_some (target_at_place party (prefixed prefix.now (decode referrals refs.now))) out.old }
{
    let i = cache_lookup::find_prefix(refs, prefix).ok_or(ShowError::NoEntry)?;
    put(cache_lookup::target(refs, i, party as usize), out)
}

// The party of a root request: the host, or a DC.
fn put_root(
    doms: &[u16],
    path: &[u16],
    entry: u16,
    party: u16,
    out: &mut [u16],
) -> Result<u16, ShowError>
    requires { (good_prefix path.now ≡ true) × ((entry ≡ 0 → ⊥) → party < dcs_named path.now doms.now) }
    ensures { given result out.new ≡ shows_some (root_party entry party path.now doms.now) out.old }
{
    if entry == 0 {
        put(walk_steps::steps::host(path), out)
    } else {
        put_dc(doms, path, party, out)
    }
}

fn put_party(
    refs: &[u16],
    doms: &[u16],
    path: &[u16],
    boot: &[u16],
    q: Asking,
    out: &mut [u16],
) -> Result<u16, ShowError>
    requires { Showable refs.now doms.now path.now boot.now q }
    ensures { given result out.new ≡ shows_some (party_of (caches_of refs.now doms.now) (core_of path.now 0 true) boot.now (question_of q [])) out.old }
{
    match q.kind {
        Kind::Dc => put(boot, out),
        Kind::Root => put_root(doms, path, q.entry, q.party, out),
        Kind::Sysvol => put_dc(doms, path, q.party, out),
        Kind::Link => put_target(refs, &path[..q.entry as usize], q.party, out),
        // an arm of its own, so that the edit party_where_round_began can plant its mistake in the other
        Kind::Io => put_target(refs, &path[..q.entry as usize], q.party, out),
    }
}

// The party, if the entry in use is there with both parties of the round.
fn put_waiting(
    refs: &[u16],
    doms: &[u16],
    path: &[u16],
    boot: &[u16],
    q: Asking,
    out: &mut [u16],
) -> Result<u16, ShowError>
    requires { (good_prefix path.now ≡ true) × ((q.entry ≤ length path.now) × (length boot.now ≤ 256)) }
    ensures { given result out.new ≡ shows_some (party_text (caches_of refs.now doms.now) (core_of path.now 0 true) boot.now (question_of q [])) out.old }
{
    if !walk_steps::rounds::in_use(refs, doms, path, q) {
        return Err(ShowError::NoEntry);
    }
    put_party(refs, doms, path, boot, q, out)
}

// The party of the question that waits.
pub fn question_party(
    refs: &[u16],
    doms: &[u16],
    walk: Walk,
    texts: &[u16],
    out: &mut [u16],
) -> Result<u16, ShowError>
    ensures { given result out.new ≡ party_call refs.now doms.now walk texts.now out.old }
{
    if !caches_in_order(refs, doms) {
        return Err(ShowError::NotInOrder);
    }
    let q = question(walk, texts).ok_or(ShowError::OutOfForm)?;
    let path = &texts[..walk.path as usize];
    let boot = &texts[BOOT..BOOT + walk.boot as usize];
    put_waiting(refs, doms, path, boot, q, out)
}

fn put_name(path: &[u16], tried: &[u16], q: Asking, out: &mut [u16]) -> Result<u16, ShowError>
    requires { (length path.now ≤ 256) × (length tried.now ≤ 256) }
    ensures { given result out.new ≡ shows (name_asked (core_of path.now 0 true) (question_of q tried.now)) out.old }
{
    let Some(n) = walk_steps::question_request::next_units(Next::Asks(q), path) else {
        return put(tried, out);
    };
    put(&path[..n], out)
}

// The name that the question asks for; of an I/O try the path tried.
pub fn question_name(walk: Walk, texts: &[u16], out: &mut [u16]) -> Result<u16, ShowError>
    ensures { given result out.new ≡ name_call walk texts.now out.old }
{
    let q = question(walk, texts).ok_or(ShowError::OutOfForm)?;
    let n = walk.path as usize;
    let tried = walk.tried as usize;
    put_name(&texts[..n], &texts[ROOM..ROOM + tried], q, out)
}
