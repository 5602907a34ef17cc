//! Sources and what they declare.
ghost use Rattle.std.specs.Prelude.{◌≡◌, ℕ, IfOk, OnOk, map, length};
ghost use Rattle.jc_declares.specs.Sites.{no_sites, sites_of, sites_of_unit, sites_of_top, unit_front, walked};
ghost use Rattle.jc_declares.specs.Heads.{heads_of, package_at, unit_head};
ghost use Rattle.jc_heads.specs.Joining.{joined_heads, counted};

use crate::paths::{import_heads, package_name};
use crate::walking::push_declaration;
use jc_declares::{Heads, ScopeForm, ScopeHead, SourceUnit, Standing, UnitHead};
use jc_rules::{Items, WantOfMemory};
use jc_tree::{Package, TopLevel};
use std::alloc::Global;

fn no_heads(alloc: Global) -> Heads
    ensures { result ≡ heads_of no_sites }
{
    Heads {
        units: Items::new(alloc),
        classes: Items::new(alloc),
        methods: Items::new(alloc),
        fields: Items::new(alloc),
        variables: Items::new(alloc),
        scopes: Items::new(alloc),
    }
}

fn package_at(declared: &Option<Package>) -> u32
    ensures { result ≡ package_at declared.now }
{
    match declared {
        Some(declared) => declared.at,
        None => 0,
    }
}

fn unit_head(alloc: Global, source: &SourceUnit) -> Result<UnitHead, WantOfMemory>
    ensures { IfOk result (λ head. (scope : ℕ) → head ≡ unit_head (record { file = source.now.file; scope = scope; «package» = source.now.unit.«package»; imports = source.now.unit.imports })) }
{
    Ok(UnitHead {
        file: source.file,
        at: package_at(&source.unit.package),
        package: package_name(alloc, &source.unit.package)?,
        imports: import_heads(alloc, source.unit.imports.slice())?,
    })
}

fn push_top(
    alloc: Global,
    heads: &mut Heads,
    at: &Standing,
    top: &TopLevel,
) -> Result<(), WantOfMemory>
    ensures { OnOk result (heads.new ≡ joined_heads heads.old (heads_of (sites_of_top top.now at.now (counted heads.old)))) }
{
    match top {
        TopLevel::Declaration(declaration) => push_declaration(alloc, heads, at, declaration),
        TopLevel::Semicolon { .. } => Ok(()),
    }
}

fn push_tops(
    alloc: Global,
    heads: &mut Heads,
    at: &Standing,
    types: &[TopLevel],
) -> Result<(), WantOfMemory>
    ensures { OnOk result (heads.new ≡ joined_heads heads.old (heads_of (walked (map sites_of_top types.now) at.now (counted heads.old)))) }
{
    for top in types {
        push_top(alloc, heads, at, top)?;
    }
    Ok(())
}

/// A source with its scope, before its types.
fn push_front(
    alloc: Global,
    heads: &mut Heads,
    source: &SourceUnit,
    unit: u64,
) -> Result<(), WantOfMemory>
    ensures { OnOk result (heads.new ≡ joined_heads heads.old (heads_of (unit_front source.now unit (length heads.old.scopes)))) }
{
    heads.units.push(unit_head(alloc, source)?)?;
    heads.scopes.push(ScopeHead {
        outer: None,
        form: ScopeForm::Unit(unit),
    })?;
    Ok(())
}

fn push_unit(
    alloc: Global,
    heads: &mut Heads,
    source: &SourceUnit,
    unit: u64,
) -> Result<(), WantOfMemory>
    ensures { OnOk result (heads.new ≡ joined_heads heads.old (heads_of (sites_of_unit source.now unit (counted heads.old)))) }
{
    let at = Standing {
        file: source.file,
        unit,
        round: Items::new(alloc),
        of_interface: false,
        scope: heads.scopes.len() as u64,
    };
    push_front(alloc, heads, source, unit)?;
    push_tops(alloc, heads, &at, source.unit.types.slice())?;
    Ok(())
}

/// The heads of what sources declare, in their order.
pub fn heads(alloc: Global, units: &[SourceUnit]) -> Result<Heads, WantOfMemory>
    ensures { IfOk result (λ heads. heads ≡ heads_of (sites_of units.now)) }
{
    let mut heads = no_heads(alloc);
    for unit in 0..units.len() {
        push_unit(alloc, &mut heads, &units[unit], unit as u64)?;
    }
    Ok(heads)
}
