//! Sources and what they declare.
ghost use Rattle.std.specs.Prelude.{◌≡◌, IfOk, OnOk, map, length};
ghost use Rattle.jc_declares.specs.Sites.{no_sites, sites_of, sites_of_unit, sites_of_top, unit_front, walked};
ghost use Rattle.jc_sites.specs.Joining.{with_sites, sites_seen, counted};

use crate::places::{Sites, UnitSite};
use crate::walking::push_declaration;
use jc_declares::{ScopeForm, ScopeHead, SourceUnit, Standing};
use jc_rules::{Items, WantOfMemory};
use jc_tree::TopLevel;
use std::alloc::Global;

fn empty<'a>(alloc: Global) -> Sites<'a>
    ensures { sites_seen result ≡ no_sites }
{
    Sites {
        units: Items::new(alloc),
        classes: Items::new(alloc),
        methods: Items::new(alloc),
        fields: Items::new(alloc),
        variables: Items::new(alloc),
        scopes: Items::new(alloc),
        uses: Items::new(alloc),
    }
}

fn push_top<'a>(
    alloc: Global,
    sites: &mut Sites<'a>,
    at: &Standing,
    top: &'a TopLevel,
) -> Result<(), WantOfMemory>
    ensures { OnOk result (sites.new ≡ with_sites sites.old (sites_of_top top.now at.now (counted sites.old))) }
{
    match top {
        TopLevel::Declaration(declaration) => push_declaration(alloc, sites, at, declaration),
        TopLevel::Semicolon { .. } => Ok(()),
    }
}

fn push_tops<'a>(
    alloc: Global,
    sites: &mut Sites<'a>,
    at: &Standing,
    types: &'a [TopLevel],
) -> Result<(), WantOfMemory>
    ensures { OnOk result (sites.new ≡ with_sites sites.old (walked (map sites_of_top types.now) at.now (counted sites.old))) }
{
    for top in types {
        push_top(alloc, sites, at, top)?;
    }
    Ok(())
}

/// A source with its scope, before its types.
fn push_front<'a>(
    sites: &mut Sites<'a>,
    source: &'a SourceUnit,
    unit: u64,
) -> Result<(), WantOfMemory>
    ensures { OnOk result (sites.new ≡ with_sites sites.old (unit_front source.now unit (length sites.old.scopes))) }
{
    let scope = sites.scopes.len() as u64;
    sites.units.push(UnitSite {
        file: source.file,
        scope,
        package: &source.unit.package,
        imports: source.unit.imports.slice(),
    })?;
    sites.scopes.push(ScopeHead {
        outer: None,
        form: ScopeForm::Unit(unit),
    })
}

fn push_unit<'a>(
    alloc: Global,
    sites: &mut Sites<'a>,
    source: &'a SourceUnit,
    unit: u64,
) -> Result<(), WantOfMemory>
    ensures { OnOk result (sites.new ≡ with_sites sites.old (sites_of_unit source.now unit (counted sites.old))) }
{
    let at = Standing {
        file: source.file,
        unit,
        round: Items::new(alloc),
        of_interface: false,
        scope: sites.scopes.len() as u64,
    };
    push_front(sites, source, unit)?;
    push_tops(alloc, sites, &at, source.unit.types.slice())?;
    Ok(())
}

/// What sources declare, in their order, with its trees.
pub fn sites<'a>(alloc: Global, units: &'a [SourceUnit]) -> Result<Sites<'a>, WantOfMemory>
    ensures { IfOk result (λ sites. sites_seen sites ≡ sites_of units.now) }
{
    let mut sites = empty(alloc);
    for unit in 0..units.len() {
        push_unit(alloc, &mut sites, &units[unit], unit as u64)?;
    }
    Ok(sites)
}
