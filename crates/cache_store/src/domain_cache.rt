// DC and domain replies into the domain cache: document 01, "Layouts" and "Numbers given back".
ghost use Rattle.std.specs.Prelude.{◌≡◌, true, [], map, ◌≤◌, ◌<◌, length, take, Err};
ghost use Rattle.laws.specs.Lists.{every};
ghost use Rattle.reply_bytes.specs.texts.Code.{spanned, Inside};
ghost use Rattle.cache.specs.places.Layout.{place_count};
ghost use Rattle.cache.specs.places.Code.{changed};
ghost use Rattle.cache.specs.order.Memory.{domains, right_size, decode, encode};
ghost use Rattle.reply_read.specs.referral.Code.{asked};
ghost use Rattle.reply_read.specs.referral.Request.{buffer_with};
ghost use Rattle.reply_read.specs.referral.Replies.{entries, says};
ghost use Rattle.reply_read.specs.name_lists.Code.{domain_name};
ghost use Rattle.cache_entry.specs.write_entry.Code.{add_all, add_dc};
ghost use Rattle.cache_store.specs.entry_after_reply.Stored.{dcs_stored, domain_places};
ghost use Rattle.cache_store.specs.domain_cache.Code.{good_name_span, DomainAt, StorableDcs, domains_refusal, asked_number};
ghost use Rattle.cache_store.specs.domain_cache.Domains.{names_number, domains_number, cache_after, domains_after, request_number};
ghost use Rattle.cache_store.specs.domain_cache.Code.{is_new, Fit, Added, WellFormed, Gathered};

use cache::places::PLACE;
use reply_bytes::texts::Span;
use reply_read::name_lists::DcsFound;
use reply_read::request::{LEAST_SIZE, MOST_SIZE};

// One name more than a cache has places.
const NAMES: usize = cache::order::PLACES + 1;

// Why a domain reply is not read.
#[derive(Clone, Copy, Debug, PartialEq, Eq)]
pub enum DomainsError {
    BadSize,
    NotInOrder,
    TooMany,
    Unreadable,
}

impl From<DomainsError> for u32 {
    ghost from_gives = { λ error n. n ≡ domains_refusal (Err error) };

    fn from(error: DomainsError) -> u32 {
        match error {
            DomainsError::BadSize => 3,
            DomainsError::NotInOrder => 4,
            DomainsError::TooMany => 6,
            DomainsError::Unreadable => 7,
        }
    }
}

// Different names of a domain reply, as spans of it: the first `count` of `kept`. An array and a count: memory is fixed, no heap.
#[derive(Clone, Copy)]
struct Names {
    kept: [Span; 33],
    count: usize,
}

// The DCs of the reply into place i, which has none.
fn add_dcs(cache: &mut [u16], i: usize, reply: &[u8], dcs: &[Span])
    requires { (i < place_count cache.old) × ((length dcs.now ≤ 8) × (every (good_name_span reply.now) dcs.now ≡ true)) }
    ensures { cache.new ≡ changed i (add_all add_dc 0 (map (spanned reply.now) dcs.now)) cache.old }
{
    for (n, dc) in dcs.iter().enumerate() {
        cache_entry::write_entry::add_text(cache, i, 1 + n, reply, *dc);
    }
}

// A DC reply into the domain entry at place i: its DCs, and DCHint the first.
pub fn store_dcs(cache: &mut [u16], i: usize, reply: &[u8], found: DcsFound)
    requires { DomainAt i cache.old × StorableDcs reply.now found }
    ensures { cache.new ≡ encode domains (dcs_stored i (map (spanned reply.now) (take found.count found.kept)) (decode domains cache.old)) }
{
    cache::places::keep_key(cache, i);
    add_dcs(cache, i, reply, &found.kept[..found.count]);
}

// Whether no name of those kept is equal to this one.
fn is_new(reply: &[u8], names: &[Span], s: Span) -> bool
    requires { (every (good_name_span reply.now) names.now ≡ true) × Inside reply.now s }
    ensures { result ≡ is_new (map (spanned reply.now) names.now) (spanned reply.now s) }
{
    for n in names {
        if reply_bytes::texts::same_spans(reply, *n, s) {
            return false;
        }
    }
    true
}

// The names with one more, if it is new.
fn add_once(reply: &[u8], names: Names, s: Span) -> Names
    requires { (names.count < 33) × (Fit reply.now names × (good_name_span reply.now s ≡ true)) }
    ensures { Added reply.now names s result }
{
    let count = names.count;
    if !is_new(reply, &names.kept[..count], s) {
        return names;
    }
    let mut kept = names.kept;
    kept[count] = s;
    Names {
        kept,
        count: count + 1,
    }
}

// The different names of a well-formed domain reply, 33 at most: in reply order, each in its first spelling.
fn gather(reply: &[u8]) -> Names
    requires { WellFormed reply.now }
    ensures { Gathered reply.now result }
{
    let n = reply_bytes::texts::unit_at(reply, 2) as usize;
    let mut names = Names {
        kept: [Span { from: 0, units: 0 }; 33],
        count: 0,
    };
    let mut e = 8;
    for i in 0..n {
        if names.count == NAMES {
            return names;
        }
        // the reply is well formed: none of its entries is without a name
        let Some(s) = reply_read::name_lists::domain_at(reply, e) else {
            return names;
        };
        names = add_once(reply, names, s);
        e = reply_read::referral::next_entry(reply, e);
    }
    names
}

// The names into the first places of a cache; every other place becomes free.
fn put_domains(cache: &mut [u16], reply: &[u8], names: &[Span])
    requires { (right_size cache.old ≡ true) × ((length names.now ≤ place_count cache.old) × (every (good_name_span reply.now) names.now ≡ true)) }
    ensures { cache.new ≡ encode domains (domain_places (place_count cache.old) (map (spanned reply.now) names.now)) }
{
    let units = cache.len();
    memory::clear_units(cache, 0, units);
    for (i, name) in names.iter().enumerate() {
        cache_entry::write_entry::add_text(cache, i, 0, reply, *name);
    }
}

// A well-formed domain reply into a cache, if it has places enough. Nothing is written before its different names are counted.
fn replace(reply: &[u8], cache: &mut [u16]) -> Result<(), DomainsError>
    requires { WellFormed reply.now × (right_size cache.old ≡ true) }
    ensures answer { domains_refusal result ≡ names_number (place_count cache.old) (says (map (domain_name reply.now) (entries reply.now))) }
    ensures cache { cache.new ≡ cache_after (domains_refusal result) (map (domain_name reply.now) (entries reply.now)) cache.old }
{
    let names = gather(reply);
    if cache.len() / PLACE < names.count {
        return Err(DomainsError::TooMany);
    }
    put_domains(cache, reply, &names.kept[..names.count]);
    Ok(())
}

// A domain reply replaces the domain cache. A refusal changes nothing.
pub fn read_domains(reply: &[u8], size: u32, cache: &mut [u16]) -> Result<(), DomainsError>
    ensures answer { domains_refusal result ≡ domains_number size reply.now cache.old }
    ensures cache { cache.new ≡ domains_after size reply.now cache.old }
{
    if !cache::order::right_size(cache) {
        return Err(DomainsError::NotInOrder);
    }
    if size < LEAST_SIZE {
        return Err(DomainsError::BadSize);
    }
    if MOST_SIZE < size {
        return Err(DomainsError::BadSize);
    }
    if reply_read::name_lists::read_domains(reply, size).is_err() {
        return Err(DomainsError::Unreadable);
    }
    replace(reply, cache)
}

// The request for domains, whose name is empty, into a lent buffer.
pub fn domain_request(out: &mut [u8]) -> Option<usize>
    ensures number { asked_number result ≡ request_number (length out.old) }
    ensures answer { result ≡ asked (length out.old) [] }
    ensures buffer { out.new ≡ buffer_with [] out.old }
{
    let none: [u16; 0] = [];
    reply_read::request::request(&none, out)
}
