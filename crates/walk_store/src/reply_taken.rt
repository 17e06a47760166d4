// A reply taken: read by the kind of its question, tested, and stored with the hint of the party that answered. It returns before the
// steps go on, so that they do not run under a frame that holds what was read.
// The caches, the path, the question and the reply are passed one by one: each function writes others of them, and a struct of borrows
// would be made anew at each call.
ghost use Rattle.std.specs.Prelude.{◌≡◌, true, [], ◌<◌, length, take};
ghost use Rattle.unc.specs.names.Paths.{matches};
ghost use Rattle.reply_bytes.specs.texts.Code.{spanned};
ghost use Rattle.cache.specs.places.Layout.{place_count};
ghost use Rattle.cache.specs.order.Memory.{domains, decode};
ghost use Rattle.reply_read.specs.referral.Replies.{read_referral};
ghost use Rattle.reply_read.specs.referral.Code.{referral_shown};
ghost use Rattle.reply_read.specs.name_lists.NameLists.{read_dcs};
ghost use Rattle.cache_store.specs.entry_after_reply.Stored.{is_interlink};
ghost use Rattle.cache_store.specs.entry_after_reply.Code.{Storable};
ghost use Rattle.walk_steps.specs.steps.Steps.{empty_end, hint_set, stored_turn, dc_answer, referral_answer, referral_succeeds};
ghost use Rattle.walk_steps.specs.steps.Held.{caches_of, core_of, question_of};
ghost use Rattle.walk_steps.specs.declared.steps.Kind.TheVariants.{Dc};
ghost use Rattle.walk_store.specs.party_hint.Code.{lent_caches, Using};
ghost use Rattle.walk_store.specs.reply_taken.Code.{covers_no_more, unread_taken, saved_in, awaited_by, taken_turn, put_back, TakenIn, NamedIn};

use crate::party_hint::Hinted;
use cache::places::PLACE;
use reply_read::referral::{ReferralFound, Unread};
use walk_steps::steps::{Asking, End, Kind, Progress};

// The statuses of ends that no host has answered.
pub const PATH_NOT_FOUND: u32 = 0xC000003A;

pub const PATH_NOT_COVERED: u32 = 0xC0000257;

// What was taken of a reply: nothing, and the walk ends with a status; DCs into a place of the domain cache; or an entry into a place of
// the referral cache, with the hint that was set before it.
#[derive(Clone, Copy)]
pub enum Taken {
    Ends(End, u32),
    Dcs(usize),
    Entry(usize, Hinted),
}

// The reply that a question waits for: the names of DCs, or a referral for so many units of the path; three ways, so no Option.
#[derive(Clone, Copy)]
pub enum Awaited {
    DcNames,
    Referral(usize),
    NoReply,
}

// The end of a reply without an entry.
#[tactic(auto, unfolding(walk_steps::specs::steps::Steps::empty_end))]
fn empty_end(kind: Kind) -> End
    ensures { result ≡ empty_end kind }
{
    match kind {
        Kind::Dc | Kind::Sysvol => End::NoDc,
        Kind::Root | Kind::Link | Kind::Io => End::Failed,
    }
}

// Step 8.1.2: a root, or a prefix of so many units.
#[tactic(auto, unfolding(crate::specs::reply_taken::Code::covers_no_more))]
fn covers_nothing(q: Asking, root: bool, units: usize) -> bool
    ensures { result ≡ covers_no_more q root units }
{
    q.uncovered && (root || units <= q.entry as usize)
}

// What is taken of a reply that says nothing.
#[tactic(auto, unfolding(crate::specs::reply_taken::Code::unread_taken))]
fn unread_taken(kind: Kind, why: Unread) -> Taken
    ensures { result ≡ unread_taken kind why }
{
    match why {
        Unread::Malformed => Taken::Ends(End::Malformed, 0),
        Unread::Nothing => Taken::Ends(empty_end(kind), PATH_NOT_FOUND),
    }
}

// Whether the entry that a reply makes is an Interlink. Its header alone tells.
#[tactic(auto, unfolding(cache_store::specs::entry_after_reply::Stored::is_interlink, reply_read::specs::referral::Code::referral_shown))]
fn is_interlink(doms: &[u16], reply: &[u8], found: ReferralFound) -> bool
    ensures { result ≡ is_interlink (referral_shown reply.now found) (decode domains doms.now) }
{
    found.servers && !found.storage
}

// Place i, saved where there is room for it.
#[tactic(auto, unfolding(crate::specs::reply_taken::Code::saved_in, laws::specs::Choice::choose))]
fn save_in(cache: &[u16], i: usize, saved: &mut [u16])
    requires { i < place_count cache.now }
    ensures { saved.new ≡ saved_in i cache.now saved.old }
{
    if saved.len() == PLACE {
        cache::places::save_place(cache, i, saved);
    }
}

// The hint of the party that answered, then the entry.
fn store_entry(
    refs: &mut [u16],
    doms: &mut [u16],
    path: &[u16],
    g: Progress,
    q: Asking,
    reply: &[u8],
    found: ReferralFound,
    saved: &mut [u16],
) -> Taken
    requires { Using refs.old doms.old path.now q × (Storable reply.now found × (matches (spanned reply.now found.prefix) path.now ≡ true)) }
    ensures turn { taken_turn (core_of path.now g.size g.hit) q.kind result refs.new doms.new ≡ stored_turn (hint_set (caches_of refs.old doms.old) (core_of path.now g.size g.hit) (question_of q [])) (core_of path.now g.size g.hit) (question_of q []) (referral_shown reply.now found) g.clock }
    ensures back { length saved.old ≡ 2336 → put_back result saved.new refs.new doms.new ≡ lent_caches refs.old doms.old }
    ensures after { TakenIn (length saved.old) result saved.new path.now refs.new doms.new }
{
    let hinted = crate::party_hint::set_hint(refs, doms, path, q);
    let interlink = is_interlink(doms, reply, found);
    let place = cache_store::new_or_refreshed::store_place(refs, reply, found.prefix, g.clock);
    save_in(refs, place, saved);
    cache_store::new_or_refreshed::store(refs, reply, found, interlink, g.clock);
    Taken::Entry(place, hinted)
}

// A root, link or SYSVOL reply; the name asked is the first `name` units of the path.
fn take_referral(
    refs: &mut [u16],
    doms: &mut [u16],
    path: &[u16],
    g: Progress,
    q: Asking,
    name: usize,
    reply: &[u8],
    saved: &mut [u16],
) -> Taken
    requires { Using refs.old doms.old path.now q × NamedIn name path.now }
    ensures turn { taken_turn (core_of path.now g.size g.hit) q.kind result refs.new doms.new ≡ referral_answer (caches_of refs.old doms.old) (core_of path.now g.size g.hit) (question_of q []) g.clock (read_referral q.size (take name path.now) reply.now) }
    ensures back { length saved.old ≡ 2336 → put_back result saved.new refs.new doms.new ≡ lent_caches refs.old doms.old }
    ensures after { TakenIn (length saved.old) result saved.new path.now refs.new doms.new }
{
    match reply_read::referral::read_referral(reply, q.size, &path[..name]) {
        Err(why) => unread_taken(q.kind, why),
        Ok(found) => {
            if covers_nothing(q, found.root, found.prefix.units) {
                Taken::Ends(End::Failed, PATH_NOT_COVERED)
            } else {
                store_entry(refs, doms, path, g, q, reply, found, saved)
            }
        }
    }
}

// A DC reply, into the domain of the path's first component.
fn take_dcs(
    refs: &[u16],
    doms: &mut [u16],
    path: &[u16],
    g: Progress,
    q: Asking,
    reply: &[u8],
    saved: &mut [u16],
) -> Taken
    requires { Using refs.now doms.old path.now q × (q.kind ≡ Dc) }
    ensures turn { taken_turn (core_of path.now g.size g.hit) q.kind result refs.now doms.new ≡ dc_answer (caches_of refs.now doms.old) (core_of path.now g.size g.hit) (read_dcs q.size reply.now) }
    ensures back { length saved.old ≡ 2336 → put_back result saved.new refs.now doms.new ≡ lent_caches refs.now doms.old }
    ensures after { TakenIn (length saved.old) result saved.new path.now refs.now doms.new }
{
    let Some(i) = cache_lookup::find_domain(doms, walk_steps::steps::host(path)) else {
        // cannot come: the domain was found to be there
        return Taken::Ends(End::Gone, 0);
    };
    match reply_read::name_lists::read_dcs(reply, q.size) {
        Err(why) => unread_taken(Kind::Dc, why),
        Ok(found) => {
            save_in(doms, i, saved);
            cache_store::domain_cache::store_dcs(doms, i, reply, found);
            Taken::Dcs(i)
        }
    }
}

// What is read: the name asked is the first so many units of the path. An I/O try has no reply.
#[tactic(auto, unfolding(crate::specs::reply_taken::Code::awaited_by))]
fn reply_awaited(kind: Kind, path: &[u16]) -> Awaited
    ensures { result ≡ awaited_by kind path.now }
{
    match kind {
        Kind::Dc => Awaited::DcNames,
        Kind::Root | Kind::Sysvol => Awaited::Referral(unc::prefix::first_end(path, 2)),
        Kind::Link => Awaited::Referral(path.len()),
        Kind::Io => Awaited::NoReply,
    }
}

// The reply to the question q, which succeeded. Where `saved` has the units of a place, the place that is written is saved there first.
pub fn take_reply(
    refs: &mut [u16],
    doms: &mut [u16],
    path: &[u16],
    g: Progress,
    q: Asking,
    reply: &[u8],
    saved: &mut [u16],
) -> Taken
    requires { Using refs.old doms.old path.now q }
    ensures turn { taken_turn (core_of path.now g.size g.hit) q.kind result refs.new doms.new ≡ referral_succeeds (caches_of refs.old doms.old) (core_of path.now g.size g.hit) (question_of q []) reply.now g.clock }
    ensures back { length saved.old ≡ 2336 → put_back result saved.new refs.new doms.new ≡ lent_caches refs.old doms.old }
    ensures after { TakenIn (length saved.old) result saved.new path.now refs.new doms.new }
{
    match reply_awaited(q.kind, path) {
        Awaited::DcNames => take_dcs(refs, doms, path, g, q, reply, saved),
        Awaited::Referral(name) => take_referral(refs, doms, path, g, q, name, reply, saved),
        Awaited::NoReply => Taken::Ends(End::Malformed, 0),
    }
}
