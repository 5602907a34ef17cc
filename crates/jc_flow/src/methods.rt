//! Reachability and exceptions of a method as a whole.
ghost use Rattle.std.specs.Prelude.{◌≡◌, ◌<◌, ◌++◌, None, [], length, true, IfErr, IfOk, OnOk};
ghost use Rattle.jc_types.specs.Accessors.{method_place_of};
ghost use Rattle.jc_types.specs.Breaks.{least};
ghost use Rattle.jc_typed.specs.Parts.{stmt_of, stmts_of};
ghost use Rattle.jc_flow_spec.specs.States.{break_of, with_live};
ghost use Rattle.jc_flow_spec.specs.Statements.{stmt_flow};
ghost use Rattle.jc_flow_spec.specs.Methods.{body_flow, completes_at, ended_breaks, entered, flow_breaks, initialisers_flow, place_of, place_or_none, uncaught_breaks};
ghost use Rattle.jc_flow_parts.specs.Lists.{AllBelow, stmts_by};
ghost use Rattle.jc_flow.specs.Checked.{IsFlowStop, ReturnsAlways, ThrowsDeclared};

use crate::numbers::Numbers;
use crate::statements::{stmt_flow, stmts_flow};
use crate::walk::Walk;
use jc_flow_parts::{Scene, break_if, is_undeclared, next_stmt, no_ways, set_live, stmts_listed};
use jc_flow_spec::{Flow, Thrown};
use jc_rules::{Items, Place, Refusal, Rule, Stop, WantOfMemory};
use jc_typed::{Body, TypedMethod};
use jc_types::{MethodId, Table, Ty, method_at, method_result, method_thrown, sooner};
use std::alloc::Global;

fn entered(alloc: Global) -> Flow
    ensures { result ≡ entered }
{
    Flow {
        live: true,
        ways: no_ways(alloc),
        assigned: Items::new(alloc),
        exact: Items::new(alloc),
        broken: Items::new(alloc),
    }
}

// An initialiser begins reachable, and has to complete (JLS 8.6, 8.7).
fn initialiser_flow(walk: &Walk, at: u32, s: &mut Flow) -> Result<(), WantOfMemory>
    requires { at < length walk.now.scene.nodes.now }
    ensures { OnOk result (s.new ≡ completes_at (place_of (stmt_of walk.now.scene.nodes.now at)) (stmt_flow walk.now.scene.table.now walk.now.scene.env.now.bounds walk.now.assigned.now (stmt_of walk.now.scene.nodes.now at) (with_live true s.old))) }
{
    let place = walk.scene.nodes.stmt(at).place;
    set_live(s, true);
    stmt_flow(walk, at, s)?;
    let live = s.live;
    break_if(s, !live, Rule::known(708), place)
}

fn initialisers_flow(walk: &Walk, at: u32, s: &mut Flow) -> Result<(), WantOfMemory>
    requires { at < length walk.now.scene.nodes.now }
    ensures { OnOk result (s.new ≡ initialisers_flow walk.now.scene.table.now walk.now.scene.env.now.bounds walk.now.assigned.now (stmts_of walk.now.scene.nodes.now at) s.old) }
{
    let places = stmts_listed(walk.scene.alloc, walk.scene.nodes, at)?;
    placed_initialisers_flow(walk, at, places.slice(), s)
}

// The initialisers of a list at `at`, by their places, the last one first.
fn placed_initialisers_flow(
    walk: &Walk,
    at: u32,
    places: &[u32],
    s: &mut Flow,
) -> Result<(), WantOfMemory>
    requires within { at < length walk.now.scene.nodes.now }
    requires below { AllBelow at places.now }
    ensures { OnOk result (s.new ≡ initialisers_flow walk.now.scene.table.now walk.now.scene.env.now.bounds walk.now.assigned.now (stmts_by walk.now.scene.nodes.now places.now) s.old) }
{
    let mut left = places.len();
    'initialisers_left: while left > 0 {
        let next = next_stmt(walk.scene.nodes, at, places, left);
        initialiser_flow(walk, next, s)?;
        left -= 1;
    }
    Ok(())
}

// A constructor's call of another one, the initialisers, and the block.
fn body_flow(walk: &Walk, body: Body) -> Result<Flow, WantOfMemory>
    requires call { body.call < length walk.now.scene.nodes.now }
    requires initialisers { body.initialisers < length walk.now.scene.nodes.now }
    requires rest { body.rest < length walk.now.scene.nodes.now }
    ensures { IfOk result (λ r. r ≡ body_flow walk.now.scene.table.now walk.now.scene.env.now.bounds walk.now.assigned.now walk.now.scene.nodes.now body) }
{
    let mut s = entered(walk.scene.alloc);
    stmts_flow(walk, body.call, &mut s)?;
    initialisers_flow(walk, body.initialisers, &mut s)?;
    set_live(&mut s, true);
    stmt_flow(walk, body.rest, &mut s)?;
    Ok(s)
}

// The locals that a body assigns.
fn assigned_in(scene: &Scene, body: Body) -> Result<Items<u32>, WantOfMemory>
    requires call { body.call < length scene.now.nodes.now }
    requires initialisers { body.initialisers < length scene.now.nodes.now }
    requires rest { body.rest < length scene.now.nodes.now }
    ensures { IfOk result (λ r. r ≡ (body_flow scene.now.table.now scene.now.env.now.bounds [] scene.now.nodes.now body).assigned) }
{
    let none = Numbers::of(scene.alloc, Items::new(scene.alloc), 0)?;
    let walk = Walk {
        scene: *scene,
        assigned: &none,
    };
    let Flow {
        live: _,
        ways: _,
        assigned,
        exact: _,
        broken: _,
    } = body_flow(&walk, body)?;
    Ok(assigned)
}

// What the body of a method comes to, where it is known which of so many locals it assigns.
fn end_of(scene: &Scene, locals: usize, body: Body) -> Result<Flow, WantOfMemory>
    requires call { body.call < length scene.now.nodes.now }
    requires initialisers { body.initialisers < length scene.now.nodes.now }
    requires rest { body.rest < length scene.now.nodes.now }
    ensures { IfOk result (λ r. r ≡ body_flow scene.now.table.now scene.now.env.now.bounds (body_flow scene.now.table.now scene.now.env.now.bounds [] scene.now.nodes.now body).assigned scene.now.nodes.now body) }
{
    let assigned = Numbers::of(scene.alloc, assigned_in(scene, body)?, locals)?;
    let walk = Walk {
        scene: *scene,
        assigned: &assigned,
    };
    body_flow(&walk, body)
}

fn push_if(
    out: &mut Items<Refusal>,
    is_broken: bool,
    rule: Rule,
    place: Place,
) -> Result<(), WantOfMemory>
    ensures { OnOk result (out.new ≡ out.old ++ break_of is_broken rule place) }
{
    if !is_broken {
        return Ok(());
    }
    out.push(Refusal {
        rule,
        place,
        have: 0,
    })
}

// What is thrown out of the method and isn't declared.
fn push_uncaught(
    scene: &Scene,
    declared: &[Ty],
    thrown: &[Thrown],
    out: &mut Items<Refusal>,
) -> Result<(), WantOfMemory>
    ensures { OnOk result (out.new ≡ out.old ++ uncaught_breaks scene.now.table.now scene.now.env.now.bounds declared.now thrown.now) }
{
    let mut rest = thrown;
    while let [x, more @ ..] = rest {
        let is_undeclared = is_undeclared(scene, declared, &x.ty)?;
        push_if(out, is_undeclared, Rule::known(703), x.place)?;
        rest = more;
    }
    Ok(())
}

// Where a method is declared; the start of file 0 where the table hasn't got it.
fn place_of_method(table: &Table, id: MethodId) -> Place
    ensures { result ≡ place_or_none (method_place_of table.now id) }
{
    match method_at(table, id) {
        Some(method) => method.place,
        None => Place { file: 0, at: 0 },
    }
}

// All breaks of a method, by what its body came to.
fn ended_breaks(scene: &Scene, id: MethodId, s: Flow) -> Result<Items<Refusal>, WantOfMemory>
    ensures { IfOk result (λ r. r ≡ ended_breaks scene.now.table.now scene.now.env.now.bounds id s) }
{
    let Flow {
        live,
        ways,
        assigned: _,
        exact: _,
        broken: mut out,
    } = s;
    let has_result = method_result(scene.table, id).is_some();
    let place = place_of_method(scene.table, id);
    push_if(&mut out, has_result && live, Rule::known(702), place)?;
    let declared = method_thrown(scene.table, id);
    push_uncaught(scene, declared, ways.thrown.slice(), &mut out)?;
    Ok(out)
}

fn least(broken: &[Refusal]) -> Option<Refusal>
    ensures { result ≡ least None broken.now }
{
    let mut found = None;
    let mut rest = broken;
    while let [b, more @ ..] = rest {
        found = sooner(found, Some(*b));
        rest = more;
    }
    found
}

#[tactic(auto, unfolding(jc_flow_spec::specs::Methods::end_of))]
fn flow_breaks(
    alloc: Global,
    table: &Table,
    method: &TypedMethod,
) -> Result<Items<Refusal>, WantOfMemory>
    ensures { IfOk result (λ r. r ≡ flow_breaks table.now method.now) }
{
    match method.body {
        None => Ok(Items::new(alloc)),
        Some(body) => {
            let scene = Scene {
                alloc,
                table,
                env: &method.captured,
                nodes: &method.nodes,
                assigned: &[],
            };
            let end = end_of(&scene, method.locals.len(), body)?;
            ended_breaks(&scene, method.id, end)
        }
    }
}

/// Refuses a method by the least of its breaks of the rules 701 to 704 and 708, where it has one. A method that is taken has no statement that
/// can't be reached; where it has a result, the end of its body can't be reached; and each checked type that comes out of its body is declared.
#[tactic(auto, using(crate::proofs::Told::told))]
pub fn check_flow(alloc: Global, table: &Table, method: &TypedMethod) -> Result<(), Stop<Refusal>>
    ensures taken { OnOk result (flow_breaks table.now method.now ≡ []) }
    ensures refused { IfErr result (λ stop. IsFlowStop table.now method.now stop) }
    ensures returns_always { OnOk result (ReturnsAlways table.now method.now method.now.body) }
    ensures throws_declared { OnOk result (ThrowsDeclared table.now method.now method.now.body) }
{
    let broken = flow_breaks(alloc, table, method)?;
    match least(broken.slice()) {
        Some(refusal) => Err(Stop::Refused(refusal)),
        None => Ok(()),
    }
}
