//! Steps of a walk over statements.
ghost use Rattle.std.specs.Prelude.{◌≡◌, ◌++◌, ◌||◌, ◌&&◌, [], ◌∷◌, IfOk, OnOk};
ghost use Rattle.jc_typed.specs.Copies.{is_among};
ghost use Rattle.jc_flow_spec.specs.States.{again, assigns, both_ways, breaks_if, breaks_out, breaks_rule, catching, caught, closed, either, exact_or, goes_on, joined, joined_all, left, no_ways, reached, thrown_at, through, throws, with_live, with_thrown, with_ways, without};
ghost use Rattle.jc_flow_spec.specs.Statements.{at_label};

use jc_flow_spec::{Exact, Flow, Thrown, Ways};
use jc_rules::{Items, Place, Refusal, Rule, WantOfMemory};
use jc_types::{Ty, copy_type, copy_types};
use std::alloc::Global;

pub fn no_ways(alloc: Global) -> Ways
    ensures { result ≡ no_ways }
{
    Ways {
        breaks: Items::new(alloc),
        continues: Items::new(alloc),
        thrown: Items::new(alloc),
    }
}

#[tactic(auto, unfolding(jc_flow_spec::specs::States::with_live))]
pub fn set_live(s: &mut Flow, live: bool)
    ensures { s.new ≡ with_live live s.old }
{
    s.live = live;
}

/// Puts other ways out in place of those so far, and gives these.
#[tactic(auto, unfolding(jc_flow_spec::specs::States::with_ways))]
pub fn swap_ways(s: &mut Flow, ways: Ways) -> Ways
    ensures new { s.new ≡ with_ways ways s.old }
    ensures old { result ≡ s.old.ways }
{
    std::mem::replace(&mut s.ways, ways)
}

/// Puts other thrown types in place of those so far, and gives these.
#[tactic(auto, unfolding(jc_flow_spec::specs::States::with_thrown))]
pub fn swap_thrown(s: &mut Flow, thrown: Items<Thrown>) -> Items<Thrown>
    ensures new { s.new ≡ with_thrown thrown s.old }
    ensures old { result ≡ s.old.ways.thrown }
{
    std::mem::replace(&mut s.ways.thrown, thrown)
}

#[tactic(auto, unfolding(jc_flow_spec::specs::States::breaks_rule))]
fn break_rule(s: &mut Flow, rule: Rule, place: Place) -> Result<(), WantOfMemory>
    ensures { OnOk result (s.new ≡ breaks_rule rule place s.old) }
{
    s.broken.push(Refusal {
        rule,
        place,
        have: 0,
    })
}

pub fn break_if(s: &mut Flow, is_broken: bool, rule: Rule, place: Place) -> Result<(), WantOfMemory>
    ensures { OnOk result (s.new ≡ breaks_if is_broken rule place s.old) }
{
    if is_broken {
        return break_rule(s, rule, place);
    }
    Ok(())
}

#[tactic(auto, unfolding(jc_flow_spec::specs::States::assigns))]
pub fn assign(s: &mut Flow, local: u32) -> Result<(), WantOfMemory>
    ensures { OnOk result (s.new ≡ assigns local s.old) }
{
    s.assigned.push(local)
}

fn push_thrown(
    alloc: Global,
    out: &mut Items<Thrown>,
    place: Place,
    types: &[Ty],
) -> Result<(), WantOfMemory>
    ensures { OnOk result (out.new ≡ out.old ++ thrown_at place types.now) }
{
    let mut rest = types;
    while let [t, more @ ..] = rest {
        out.push(Thrown {
            ty: copy_type(alloc, t)?,
            place,
        })?;
        rest = more;
    }
    Ok(())
}

#[tactic(auto, unfolding(jc_flow_spec::specs::States::throws))]
pub fn throw(alloc: Global, s: &mut Flow, place: Place, types: &[Ty]) -> Result<(), WantOfMemory>
    ensures { OnOk result (s.new ≡ throws place types.now s.old) }
{
    push_thrown(alloc, &mut s.ways.thrown, place, types)
}

pub fn is_among(t: u32, list: &[u32]) -> bool
    ensures { result ≡ is_among t list.now }
{
    let mut rest = list;
    while let [u, more @ ..] = rest {
        if t == *u {
            return true;
        }
        rest = more;
    }
    false
}

fn join(list: &mut Items<u32>, t: u32) -> Result<(), WantOfMemory>
    ensures { OnOk result (list.new ≡ joined t list.old) }
{
    if is_among(t, list.slice()) {
        return Ok(());
    }
    list.push(t)
}

fn join_all(list: &mut Items<u32>, more: &[u32]) -> Result<(), WantOfMemory>
    ensures { OnOk result (list.new ≡ joined_all list.old more.now) }
{
    let mut rest = more;
    while let [t, others @ ..] = rest {
        join(list, *t)?;
        rest = others;
    }
    Ok(())
}

fn without(alloc: Global, t: u32, list: &[u32]) -> Result<Items<u32>, WantOfMemory>
    ensures { IfOk result (λ r. r ≡ without t list.now) }
{
    let mut out = Items::new(alloc);
    let mut rest = list;
    while let [u, more @ ..] = rest {
        if t != *u {
            out.push(*u)?;
        }
        rest = more;
    }
    Ok(out)
}

/// A jump that ends a statement.
#[tactic(auto, unfolding(jc_flow_spec::specs::States::breaks_out, jc_flow_spec::specs::States::with_live, jc_flow_spec::specs::States::with_ways))]
pub fn break_out(s: &mut Flow, target: u32) -> Result<(), WantOfMemory>
    ensures { OnOk result (s.new ≡ breaks_out target s.old) }
{
    if s.live {
        join(&mut s.ways.breaks, target)?;
    }
    s.live = false;
    Ok(())
}

/// A jump that goes on with a loop.
#[tactic(auto, unfolding(jc_flow_spec::specs::States::goes_on, jc_flow_spec::specs::States::with_live, jc_flow_spec::specs::States::with_ways))]
pub fn go_on(s: &mut Flow, target: u32) -> Result<(), WantOfMemory>
    ensures { OnOk result (s.new ≡ goes_on target s.old) }
{
    if s.live {
        join(&mut s.ways.continues, target)?;
    }
    s.live = false;
    Ok(())
}

/// Behind the body of a loop, before its test.
#[tactic(auto, unfolding(jc_flow_spec::specs::States::again, jc_flow_spec::specs::States::with_live))]
pub fn come_again(s: &mut Flow, target: u32)
    ensures { s.new ≡ again target s.old }
{
    s.live = s.live || is_among(target, s.ways.continues.slice());
}

/// Behind a statement that jumps can end.
#[tactic(auto, unfolding(jc_flow_spec::specs::States::left))]
pub fn leave(alloc: Global, s: &mut Flow, target: u32, falls: bool) -> Result<(), WantOfMemory>
    ensures { OnOk result (s.new ≡ left target falls s.old) }
{
    s.live = falls || is_among(target, s.ways.breaks.slice());
    s.ways.breaks = without(alloc, target, s.ways.breaks.slice())?;
    s.ways.continues = without(alloc, target, s.ways.continues.slice())?;
    Ok(())
}

pub fn meet(s: &mut Flow, other: bool)
    ensures { s.new ≡ either other s.old }
{
    set_live(s, other || s.live);
}

/// A statement begins.
#[tactic(auto, unfolding(jc_flow_spec::specs::States::reached))]
pub fn reach(s: &mut Flow, place: Place) -> Result<(), WantOfMemory>
    ensures { OnOk result (s.new ≡ reached place s.old) }
{
    break_if(s, !s.live, Rule::known(701), place)
}

/// A statement of a switch begins.
#[tactic(auto, unfolding(jc_flow_spec::specs::Statements::at_label))]
pub fn enter_label(s: &mut Flow, entry: bool, is_labelled: bool)
    ensures { s.new ≡ at_label entry is_labelled s.old }
{
    set_live(s, s.live || (entry && is_labelled));
}

// The ways of an earlier part and of a later one.
fn both_ways(first: Ways, second: Ways) -> Result<Ways, WantOfMemory>
    ensures { IfOk result (λ r. r ≡ both_ways first second) }
{
    let Ways {
        mut breaks,
        mut continues,
        mut thrown,
    } = first;
    join_all(&mut breaks, second.breaks.slice())?;
    join_all(&mut continues, second.continues.slice())?;
    let Ways {
        breaks: _,
        continues: _,
        thrown: more,
    } = second;
    thrown.append(more)?;
    Ok(Ways {
        breaks,
        continues,
        thrown,
    })
}

/// Behind a `try` without `finally`.
#[tactic(auto, unfolding(jc_flow_spec::specs::States::closed, jc_flow_spec::specs::States::with_ways))]
pub fn close(alloc: Global, s: &mut Flow, outer: Ways) -> Result<(), WantOfMemory>
    ensures { OnOk result (s.new ≡ closed outer s.old) }
{
    let own = swap_ways(s, no_ways(alloc));
    let ways = both_ways(outer, own)?;
    swap_ways(s, ways);
    Ok(())
}

/// Behind `finally`, where `entry` and `inner` are the state before its block.
#[tactic(auto, unfolding(jc_flow_spec::specs::States::through, jc_flow_spec::specs::States::closed, jc_flow_spec::specs::States::with_ways, jc_flow_spec::specs::States::with_live))]
pub fn pass(
    alloc: Global,
    s: &mut Flow,
    outer: Ways,
    entry: bool,
    inner: Ways,
) -> Result<(), WantOfMemory>
    ensures { OnOk result (s.new ≡ through outer entry inner s.old) }
{
    if !s.live {
        return close(alloc, s, outer);
    }
    let before = both_ways(outer, inner)?;
    close(alloc, s, before)?;
    set_live(s, entry);
    Ok(())
}

/// In the block of a catch clause.
#[tactic(auto, unfolding(jc_flow_spec::specs::States::catching))]
pub fn enter_clause(s: &mut Flow, local: u32, types: Items<Ty>) -> Result<(), WantOfMemory>
    ensures { OnOk result (s.new ≡ catching local types s.old) }
{
    s.exact.push(Exact { local, types })
}

#[tactic(auto, using(crate::proofs::Fronts::fronts), unfolding(jc_flow_spec::specs::States::caught))]
pub fn leave_clause(s: &mut Flow)
    ensures { s.new ≡ caught s.old }
{
    match s.exact.pop() {
        None => {}
        Some(_last) => {}
    }
}

/// The types that a local variable is thrown with.
pub fn exact_or(
    alloc: Global,
    own: &Ty,
    local: u32,
    exact: &[Exact],
) -> Result<Items<Ty>, WantOfMemory>
    ensures { IfOk result (λ r. r ≡ exact_or (own.now ∷ []) local exact.now) }
{
    let mut rest = exact;
    while let [x, more @ ..] = rest {
        if local == x.local {
            return copy_types(alloc, x.types.slice());
        }
        rest = more;
    }
    one_type(alloc, own)
}

/// A list of one type.
pub fn one_type(alloc: Global, t: &Ty) -> Result<Items<Ty>, WantOfMemory>
    ensures { IfOk result (λ r. r ≡ t.now ∷ []) }
{
    let mut out = Items::new(alloc);
    out.push(copy_type(alloc, t)?)?;
    Ok(out)
}
