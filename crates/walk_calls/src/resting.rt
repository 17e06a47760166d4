// What a call tests of memory of any content: the order of both caches, and where the walk rests.
ghost use Rattle.std.specs.Prelude.{◌≡◌, ◌&&◌};
ghost use Rattle.cache.specs.order.Memory.{referrals, domains, in_order};
ghost use Rattle.walk_calls.specs.resting.Code.{walk_question, walk_end};

use walk_form::held::Walk;
use walk_steps::steps::{Asking, End, Next};

// Whether both caches are in order.
pub fn caches_in_order(refs: &[u16], doms: &[u16]) -> bool
    ensures { result ≡ (in_order referrals refs.now && in_order domains doms.now) }
{
    cache::order::referrals_in_order(refs) && cache::order::domains_in_order(doms)
}

// The question that a walk in form waits for.
pub fn question(walk: Walk, texts: &[u16]) -> Option<Asking>
    ensures { result ≡ walk_question walk texts.now }
{
    if !walk_form::held::in_form(walk, texts) {
        return None;
    }
    match walk.next {
        Next::Asks(q) => Some(q),
        Next::Ends(_, _) => None,
    }
}

// The end of a walk in form, and its status.
pub fn end(walk: Walk, texts: &[u16]) -> Option<(End, u32)>
    ensures { result ≡ walk_end walk texts.now }
{
    if !walk_form::held::in_form(walk, texts) {
        return None;
    }
    match walk.next {
        Next::Asks(_) => None,
        Next::Ends(end, status) => Some((end, status)),
    }
}
