//! What a call or a creation is asked with.
ghost use Rattle.std.specs.Prelude.{◌≡◌, IfOk, map};
ghost use Rattle.jc_exprs_nodes.specs.Walks.{known};
ghost use Rattle.jc_exprs_gathering.specs.Gathered.{AllParts};
ghost use Rattle.jc_exprs_spec.specs.Calls.{site, types_of};
ghost use Rattle.jc_exprs_choosing.specs.Choosing.{TypeBelow, type_if};

use jc_exprs_gathering::typed_part;
use jc_members::MethodView;
use jc_resolve::CallSite;
use jc_rules::{Items, WantOfMemory};
use jc_typed::Nodes;
use jc_types::{Ty, copy_type};
use std::alloc::Global;

// The types that arguments count as.
#[tactic(auto, using(jc_exprs_nodes::proofs::Appending::appended))]
fn types_of(alloc: Global, nodes: &Nodes, args: &[u32]) -> Result<Items<Ty>, WantOfMemory>
    requires { AllParts nodes.now args.now }
    ensures { IfOk result (λ r. r ≡ types_of (map (known nodes.now) args.now)) }
{
    let mut types = Items::new(alloc);
    let mut rest = args;
    while let [at, more @ ..] = rest {
        let part = typed_part(nodes, *at);
        types.push(copy_type(alloc, nodes.ty(part.ty))?)?;
        rest = more;
    }
    Ok(types)
}

// The type of a target, if there is one.
fn type_if(alloc: Global, nodes: &Nodes, target: Option<u32>) -> Result<Option<Ty>, WantOfMemory>
    requires { TypeBelow nodes.now target }
    ensures { IfOk result (λ r. r ≡ type_if nodes.now target) }
{
    match target {
        None => Ok(None),
        Some(at) => Ok(Some(copy_type(alloc, nodes.ty(at))?)),
    }
}

/// A call of these members, with explicit type arguments, and with arguments and a target by their places in the arena.
pub fn call_site(
    alloc: Global,
    nodes: &Nodes,
    members: Items<MethodView>,
    explicit: Items<Ty>,
    args: &[u32],
    target: Option<u32>,
) -> Result<CallSite, WantOfMemory>
    requires args { AllParts nodes.now args.now }
    requires target { TypeBelow nodes.now target }
    ensures { IfOk result (λ r. r ≡ site members explicit (map (known nodes.now) args.now) (type_if nodes.now target)) }
{
    let args = types_of(alloc, nodes, args)?;
    let target = type_if(alloc, nodes, target)?;
    Ok(CallSite {
        members,
        explicit,
        args,
        target,
    })
}
