// What the readers of replies find, as numbers for programs in other languages: the tests over captures link this.
ghost use Rattle.std.specs.Prelude.{◌≡◌, ◌+◌, ◌<◌, ◌≤◌, length, get_or, Ok};
ghost use Rattle.reply_read.specs.name_lists.NameLists.{read_domains};
ghost use Rattle.reply_read.specs.name_lists.Code.{answer_of};
ghost use Rattle.testing.specs.layouts.Code.{unread_number, unread_numbers, said_dcs, answer_number, bits_of, said_numbers, target_numbers, span_of, FoundNumber, TargetNumber, DcNumber, DcsNumber, GoodDomains, DomainNumber};
ghost use Rattle.reply_read.specs.referral.Replies.{referral_count, entries};

use reply_bytes::texts::Span;
use reply_read::referral::{Kept, ReferralFound, Unread};

// What a reply that says nothing is read as, as a number for C; one that says something is 2.
#[tactic(auto, unfolding(crate::specs::layouts::Code::unread_number))]
fn unread_number(e: Unread) -> u64
    ensures { result ≡ unread_number e }
{
    match e {
        Unread::Malformed => 0,
        Unread::Nothing => 1,
    }
}

// Number k of a reply that says nothing: what it is read as, then zeros.
#[tactic(auto, unfolding(crate::specs::layouts::Code::unread_numbers))]
fn unread_at(e: Unread, k: usize) -> u64
    ensures { result ≡ get_or (unread_numbers e) k 0 }
{
    if k == 0 { unread_number(e) } else { 0 }
}

#[tactic(auto, unfolding(crate::specs::layouts::Code::bits_of, crate::specs::layouts::Code::bit_of))]
fn bits(f: ReferralFound) -> u64
    ensures { result ≡ bits_of f }
{
    u64::from(f.root)
        + 2 * u64::from(f.servers)
        + 4 * u64::from(f.storage)
        + 8 * u64::from(f.failback)
}

#[tactic(auto, unfolding(crate::specs::layouts::Code::said_numbers))]
fn said_number(f: ReferralFound, k: usize) -> u64
    ensures { result ≡ get_or (said_numbers f) k 0 }
{
    match k {
        0 => 2,
        1 => f.version as u64,
        2 => bits(f),
        3 => f.count as u64,
        4 => f.ttl as u64,
        5 => f.prefix.from as u64,
        6 => f.prefix.units as u64,
        7 => f.targets as u64,
        _ => 0,
    }
}

#[tactic(auto, unfolding(crate::specs::layouts::Code::said_dcs))]
fn dcs_number(count: usize, k: usize) -> u64
    ensures { result ≡ get_or (said_dcs count) k 0 }
{
    match k {
        0 => 2,
        1 => count as u64,
        _ => 0,
    }
}

#[tactic(auto, unfolding(crate::specs::layouts::Code::target_numbers, crate::specs::layouts::Code::bit_of))]
fn kept_number(t: Kept, k: usize) -> u64
    ensures { result ≡ get_or (target_numbers t) k 0 }
{
    match k {
        0 => t.path.from as u64,
        1 => t.path.units as u64,
        2 => u64::from(t.opens),
        _ => 0,
    }
}

#[tactic(auto, unfolding(crate::specs::layouts::Code::span_of))]
fn span_number(s: Span, k: usize) -> u64
    ensures { result ≡ get_or (span_of s) k 0 }
{
    match k {
        0 => s.from as u64,
        1 => s.units as u64,
        _ => 0,
    }
}

// Number k of a reply to a root, link or SYSVOL request: answer, version, bits, count, TTL, prefix, number of targets.
#[unsafe(no_mangle)]
pub extern "C" fn wire_referral(reply: &[u8], size: u32, asked: &[u16], k: usize) -> u64
    ensures { FoundNumber size asked.now reply.now k result }
{
    match reply_read::referral::read_referral(reply, size, asked) {
        Ok(f) => said_number(f, k),
        Err(e) => unread_at(e, k),
    }
}

// Number k of its target i: where the path starts, its units, whether a set opens before it.
#[unsafe(no_mangle)]
pub extern "C" fn wire_target(reply: &[u8], size: u32, asked: &[u16], i: usize, k: usize) -> u64
    ensures { i < 8 → TargetNumber size asked.now reply.now i k result }
{
    if 8 <= i {
        return 0;
    }
    match reply_read::referral::read_referral(reply, size, asked) {
        Ok(f) => kept_number(f.kept[i], k),
        Err(_) => 0,
    }
}

// Number k of a DC reply: answer, number of DCs.
#[unsafe(no_mangle)]
pub extern "C" fn wire_dcs(reply: &[u8], size: u32, k: usize) -> u64
    ensures { DcsNumber size reply.now k result }
{
    match reply_read::name_lists::read_dcs(reply, size) {
        Ok(f) => dcs_number(f.count, k),
        Err(e) => unread_at(e, k),
    }
}

// Number k of its DC i: where the name starts, its units.
#[unsafe(no_mangle)]
pub extern "C" fn wire_dc(reply: &[u8], size: u32, i: usize, k: usize) -> u64
    ensures { i < 8 → DcNumber size reply.now i k result }
{
    if 8 <= i {
        return 0;
    }
    match reply_read::name_lists::read_dcs(reply, size) {
        Ok(f) => span_number(f.kept[i], k),
        Err(_) => 0,
    }
}

// What a domain reply is read as.
#[unsafe(no_mangle)]
pub extern "C" fn wire_domains(reply: &[u8], size: u32) -> u64
    ensures { result ≡ answer_number (answer_of (read_domains size reply.now)) }
{
    match reply_read::name_lists::read_domains(reply, size) {
        Ok(()) => 2,
        Err(e) => unread_number(e),
    }
}

// Where entry i of a good domain reply starts.
fn entry_at(r: &[u8], i: usize) -> usize
    requires { GoodDomains r.now i }
    ensures start { result ≡ get_or (entries r.now) i 0 }
    ensures inside { result + 18 ≤ length r.now }
{
    let mut e = 8;
    for _j in 0..i {
        e = reply_read::referral::next_entry(r, e);
    }
    e
}

// Number k of domain i of a good domain reply: where the name starts, its units.
fn domain_number(r: &[u8], i: usize, k: usize) -> u64
    requires { GoodDomains r.now i }
    ensures { DomainNumber r.now i k result }
{
    let e = entry_at(r, i);
    // the reply is good: none of its entries is without a name
    let Some(s) = reply_read::name_lists::domain_at(r, e) else {
        return 0;
    };
    span_number(s, k)
}

// Number k of domain i of a domain reply that says something.
#[unsafe(no_mangle)]
pub extern "C" fn wire_domain(reply: &[u8], size: u32, i: usize, k: usize) -> u64
    ensures { Ok tt ≡ answer_of (read_domains size reply.now) → i < referral_count reply.now → DomainNumber reply.now i k result }
{
    if wire_domains(reply, size) != 2 || reply.len() < 8 {
        return 0;
    }
    let n = reply_bytes::texts::unit_at(reply, 2) as usize;
    if n <= i {
        return 0;
    }
    domain_number(reply, i, k)
}
