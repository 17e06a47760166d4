// The hint of the party that answered: set before its reply is stored, and taken back where number 10 comes.
ghost use Rattle.std.specs.Prelude.{◌≡◌, Bool, true, List, [], ℕ, ◌≤◌, ◌<◌, length, take};
ghost use Rattle.cache.specs.order.Order.{good_prefix};
ghost use Rattle.cache.specs.order.Memory.{referrals, domains, in_order};
ghost use Rattle.walk_steps.specs.steps.Steps.{target_hint_set, dc_hint_set, hint_set};
ghost use Rattle.walk_steps.specs.steps.Held.{caches_of, core_of, question_of};
ghost use Rattle.walk_steps.specs.rounds.Code.{targets_under, dcs_named};
ghost use Rattle.walk_store.specs.party_hint.Code.{whose_of, lent_caches, unhinted, Unhintable, Hinting, Using};

use walk_steps::steps::{Asking, Kind};

// The hint that was set, with its old value: of the targets or the DCs of the entry at a place.
#[derive(Clone, Copy)]
pub enum Hinted {
    Unset,
    Target(usize, u16),
    Dc(usize, u16),
}

// Whose hint a success sets: of three ways, so no Option.
#[derive(Clone, Copy)]
pub enum HintOf {
    Nobody,
    Targets,
    Dcs,
}

#[tactic(auto, unfolding(crate::specs::party_hint::Code::whose_of, laws::specs::Choice::choose))]
fn whose(q: Asking) -> HintOf
    ensures { result ≡ whose_of q.kind q.entry }
{
    match q.kind {
        Kind::Dc => HintOf::Nobody,
        Kind::Root if q.entry == 0 => HintOf::Nobody,
        Kind::Root | Kind::Sysvol => HintOf::Dcs,
        Kind::Link | Kind::Io => HintOf::Targets,
    }
}

// TargetHint of the entry in use.
fn hint_target(refs: &mut [u16], path: &[u16], q: Asking) -> Hinted
    requires { (in_order referrals refs.old ≡ true) × ((q.entry ≤ length path.now) × (q.party < targets_under (take q.entry path.now) refs.old)) }
    ensures { (doms : List ℕ) (size : ℕ) (hit : Bool) → in_order domains doms ≡ true → Hinting refs.old doms result refs.new doms (target_hint_set (caches_of refs.old doms) (core_of path.now size hit) (question_of q [])) }
{
    let Some(i) = cache_lookup::find_prefix(refs, &path[..q.entry as usize]) else {
        return Hinted::Unset;
    };
    let old = cache_lookup::target_hint(refs, i);
    cache_lookup::set_target_hint(refs, i, q.party);
    Hinted::Target(i, old)
}

// DCHint of the domain of the path's first component.
fn hint_dc(doms: &mut [u16], path: &[u16], q: Asking) -> Hinted
    requires { (in_order domains doms.old ≡ true) × ((good_prefix path.now ≡ true) × (q.party < dcs_named path.now doms.old)) }
    ensures { (refs : List ℕ) (size : ℕ) (hit : Bool) → in_order referrals refs ≡ true → Hinting refs doms.old result refs doms.new (dc_hint_set (caches_of refs doms.old) (core_of path.now size hit) q.party) }
{
    let Some(i) = cache_lookup::find_domain(doms, walk_steps::steps::host(path)) else {
        return Hinted::Unset;
    };
    let old = cache_lookup::dc_hint(doms, i);
    cache_lookup::set_dc_hint(doms, i, q.party);
    Hinted::Dc(i, old)
}

// The hint of the party that answered the question q.
pub fn set_hint(refs: &mut [u16], doms: &mut [u16], path: &[u16], q: Asking) -> Hinted
    requires { Using refs.old doms.old path.now q }
    ensures { (size : ℕ) (hit : Bool) → Hinting refs.old doms.old result refs.new doms.new (hint_set (caches_of refs.old doms.old) (core_of path.now size hit) (question_of q [])) }
{
    match whose(q) {
        HintOf::Nobody => Hinted::Unset,
        HintOf::Targets => hint_target(refs, path, q),
        HintOf::Dcs => hint_dc(doms, path, q),
    }
}

// The hint as it was.
#[tactic(auto, unfolding(crate::specs::party_hint::Code::unhinted, crate::specs::party_hint::Code::lent_caches))]
pub fn unset_hint(refs: &mut [u16], doms: &mut [u16], h: Hinted)
    requires { Unhintable h refs.old doms.old }
    ensures { lent_caches refs.new doms.new ≡ unhinted h refs.old doms.old }
{
    match h {
        Hinted::Unset => {}
        Hinted::Target(i, old) => cache_lookup::set_target_hint(refs, i, old),
        Hinted::Dc(i, old) => cache_lookup::set_dc_hint(doms, i, old),
    }
}
