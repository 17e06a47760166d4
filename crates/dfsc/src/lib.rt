// The library for hosts in other languages: functions over lent memory, as include/dfsc.h tells them. Caches, walk and texts are as specs/ of
// `cache::places`, `walk_form::packed` and `walk_form::held` lay them out; a slice goes as its address and its length.
#![tactic(auto)]

ghost use Rattle.std.specs.Prelude.{◌≡◌, [], length};
ghost use Rattle.cache_upkeep.specs.Calls.{upkeep_number, expire_all_call, expire_call, next_dc_call};
ghost use Rattle.reply_read.specs.referral.Request.{buffer_with};
ghost use Rattle.cache_store.specs.domain_cache.Domains.{domains_number, domains_after, request_number};
ghost use Rattle.listing_write.specs.Listed.{list_answer, buffer_after};
ghost use Rattle.listing_read.specs.listing_rules.Read.{read_number, read_after};
ghost use Rattle.dfsc_memory.specs.Units.{units_left, start_units, answer_left, referral_answer_units, io_answer_units, seen};
ghost use Rattle.dfsc_memory.specs.Units.{party_seen, name_seen, question_seen, path_seen, end_seen};
ghost use Rattle.dfsc_memory.specs.Listing.{list_result};
ghost use Rattle.dfsc_memory.specs.Version.{version};

// The version of the interface, as include/dfsc.h has it.
const VERSION: u32 = 100;

// A new walk. 0, or a refusal: 4, 1, 2, 3, 5 (the walk has not 800 units) or 10 (the request is longer than `out`).
#[unsafe(no_mangle)]
pub extern "C" fn dfsc_start(
    refs: &[u16],
    doms: &[u16],
    walk: &mut [u16],
    path: &[u16],
    boot: &[u16],
    limit: u32,
    size: u32,
    clock: u32,
    out: &mut [u8],
) -> u32
    ensures { units_left result walk.new out.new ≡ start_units refs.now doms.now walk.old path.now boot.now limit size clock out.old }
{
    let n = dfsc_memory::head_units(walk);
    let o = walk_calls::calls::start(
        refs,
        doms,
        &mut walk[n..],
        path,
        boot,
        limit,
        size,
        clock,
        out,
    );
    dfsc_memory::close(o, walk)
}

// The answer to a referral request. 0, or a refusal: 4, 5 or 10.
#[unsafe(no_mangle)]
pub extern "C" fn dfsc_answer_referral(
    refs: &mut [u16],
    doms: &mut [u16],
    walk: &mut [u16],
    status: u32,
    reply: &[u8],
    clock: u32,
    out: &mut [u8],
) -> u32
    ensures { answer_left result walk.new out.new refs.new doms.new ≡ referral_answer_units refs.old doms.old walk.old status reply.now clock out.old }
{
    let n = dfsc_memory::head_units(walk);
    let w = dfsc_memory::held(walk);
    let o = walk_calls::calls::answer_referral(
        refs,
        doms,
        w,
        &mut walk[n..],
        status,
        reply,
        clock,
        out,
    );
    dfsc_memory::close(o, walk)
}

// The answer to an I/O try. 0, or a refusal: 4, 5 or 10.
#[unsafe(no_mangle)]
pub extern "C" fn dfsc_answer_io(
    refs: &mut [u16],
    doms: &[u16],
    walk: &mut [u16],
    status: u32,
    clock: u32,
    out: &mut [u8],
) -> u32
    ensures { answer_left result walk.new out.new refs.new doms.now ≡ io_answer_units refs.old doms.now walk.old status clock out.old }
{
    let n = dfsc_memory::head_units(walk);
    let w = dfsc_memory::held(walk);
    let o = walk_calls::calls::answer_io(refs, doms, w, &mut walk[n..], status, clock, out);
    dfsc_memory::close(o, walk)
}

// The party of the question that waits: its units, or 65,536 times 4, 5, 10 or 27.
#[unsafe(no_mangle)]
pub extern "C" fn dfsc_question_party(
    refs: &[u16],
    doms: &[u16],
    walk: &[u16],
    out: &mut [u16],
) -> u32
    ensures { seen result out.new ≡ party_seen refs.now doms.now walk.now out.old }
{
    let n = dfsc_memory::head_units(walk);
    let s = walk_shown::question::question_party(
        refs,
        doms,
        dfsc_memory::held(walk),
        &walk[n..],
        out,
    );
    dfsc_memory::shown_result(s)
}

// The name that the question asks for: its units, or 65,536 times 5 or 10.
#[unsafe(no_mangle)]
pub extern "C" fn dfsc_question_name(walk: &[u16], out: &mut [u16]) -> u32
    ensures { seen result out.new ≡ name_seen walk.now out.old }
{
    let n = dfsc_memory::head_units(walk);
    let s = walk_shown::question::question_name(dfsc_memory::held(walk), &walk[n..], out);
    dfsc_memory::shown_result(s)
}

// The question's kind (1 dc, 2 root, 3 link, 4 sysvol, 5 io), the size asked and the moves: 3, or 65,536 times 5 or 10.
#[unsafe(no_mangle)]
pub extern "C" fn dfsc_question(walk: &[u16], out: &mut [u32]) -> u32
    ensures { seen result out.new ≡ question_seen walk.now out.old }
{
    let n = dfsc_memory::head_units(walk);
    let s = walk_shown::numbers::question_numbers(dfsc_memory::held(walk), &walk[n..], out);
    dfsc_memory::shown_result(s)
}

// The path of an end: its units, or 65,536 times 5 or 10.
#[unsafe(no_mangle)]
pub extern "C" fn dfsc_end_path(walk: &[u16], out: &mut [u16]) -> u32
    ensures { seen result out.new ≡ path_seen walk.now out.old }
{
    let n = dfsc_memory::head_units(walk);
    let s = walk_shown::numbers::end_path(dfsc_memory::held(walk), &walk[n..], out);
    dfsc_memory::shown_result(s)
}

// The end's number, its status and the moves: 3, or 65,536 times 5 or 10.
#[unsafe(no_mangle)]
pub extern "C" fn dfsc_end(walk: &[u16], out: &mut [u32]) -> u32
    ensures { seen result out.new ≡ end_seen walk.now out.old }
{
    let n = dfsc_memory::head_units(walk);
    let s = walk_shown::numbers::end_numbers(dfsc_memory::held(walk), &walk[n..], out);
    dfsc_memory::shown_result(s)
}

// The request for a domain reply: 0, or 10.
#[unsafe(no_mangle)]
pub extern "C" fn dfsc_domain_request(out: &mut [u8]) -> u32
    ensures number { result ≡ request_number (length out.old) }
    ensures buffer { out.new ≡ buffer_with [] out.old }
{
    let Some(_) = cache_store::domain_cache::domain_request(out) else {
        return 10;
    };
    0
}

// A domain reply into the domain cache: 0, or 4, 3, 6 or 7.
#[unsafe(no_mangle)]
pub extern "C" fn dfsc_read_domains(reply: &[u8], size: u32, doms: &mut [u16]) -> u32
    ensures number { result ≡ domains_number size reply.now doms.old }
    ensures cache { doms.new ≡ domains_after size reply.now doms.old }
{
    let read = cache_store::domain_cache::read_domains(reply, size, doms);
    dfsc_memory::number(read)
}

// The referral cache as text: its units, or 2^32 times 4 or 10.
#[unsafe(no_mangle)]
pub extern "C" fn dfsc_list(refs: &[u16], out: &mut [u16]) -> u64
    ensures answer { result ≡ list_result (list_answer refs.now (length out.old)) }
    ensures buffer { out.new ≡ buffer_after refs.now out.old }
{
    let answer = listing_write::list(refs, out);
    dfsc_memory::list_result(answer)
}

// A text into the referral cache: 0, or 4, 8 or 9.
#[unsafe(no_mangle)]
pub extern "C" fn dfsc_read(text: &[u16], refs: &mut [u16]) -> u32
    ensures number { result ≡ read_number text.now refs.old }
    ensures cache { refs.new ≡ read_after text.now refs.old }
{
    let answer = listing_read::read_listing::read(text, refs);
    dfsc_memory::number(answer)
}

// Expires every entry of the referral cache: 0, or 4.
#[unsafe(no_mangle)]
pub extern "C" fn dfsc_expire_all(refs: &mut [u16]) -> u32
    ensures number { result ≡ upkeep_number (expire_all_call refs.old).answer }
    ensures cache { refs.new ≡ (expire_all_call refs.old).cache }
{
    let answer = cache_upkeep::expire_all(refs);
    dfsc_memory::number(answer)
}

// Expires the referral entry whose prefix is equal to the path: 0, or 4, 1, 2 or 27.
#[unsafe(no_mangle)]
pub extern "C" fn dfsc_expire(refs: &mut [u16], path: &[u16]) -> u32
    ensures number { result ≡ upkeep_number (expire_call refs.old path.now).answer }
    ensures cache { refs.new ≡ (expire_call refs.old path.now).cache }
{
    let answer = cache_upkeep::expire(refs, path);
    dfsc_memory::number(answer)
}

// Moves the DCHint of the domain of an equal name to its next DC: 0, or 4 or 27.
#[unsafe(no_mangle)]
pub extern "C" fn dfsc_next_dc(doms: &mut [u16], name: &[u16]) -> u32
    ensures number { result ≡ upkeep_number (next_dc_call doms.old name.now).answer }
    ensures cache { doms.new ≡ (next_dc_call doms.old name.now).cache }
{
    let answer = cache_upkeep::next_dc(doms, name);
    dfsc_memory::number(answer)
}

// The version of the interface.
#[unsafe(no_mangle)]
pub extern "C" fn dfsc_version() -> u32
    ensures { result ≡ version }
{
    VERSION
}
