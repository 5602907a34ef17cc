//! What stands before the members of a declaration, a body and the statements of a clause.
ghost use Rattle.std.specs.Prelude.{◌≡◌, IfOk};

use crate::expressions::{copy_expr, copy_exprs};
use crate::parts::{
    copy_classes, copy_formals, copy_locals, copy_modifiers, copy_params, copy_some_class,
    copy_some_expr, copy_some_params_of, copy_some_result,
};
use crate::together::{added, both};
use jc_rules::{Items, WantOfMemory};
use jc_tree::{
    ClauseHead, DeclarationHead, ForHead, ForInit, MethodHead, Resource, Resources, copy_class,
    copy_ident, copy_type,
};
use std::alloc::Global;

pub fn copy_head(alloc: Global, head: &DeclarationHead) -> Result<DeclarationHead, WantOfMemory>
    ensures { IfOk result (λ copy. copy ≡ head.now) }
{
    match head {
        DeclarationHead::Class {
            modifiers,
            at,
            name,
            params,
            extends,
            implements,
        } => {
            let modifiers = copy_modifiers(alloc, modifiers.slice());
            let named = both(modifiers, copy_ident(alloc, name));
            let extends = copy_some_class(alloc, extends);
            let supers = both(extends, copy_classes(alloc, implements.slice()));
            let params = copy_params(alloc, params.slice());
            match both(named, both(params, supers)) {
                Ok(((modifiers, name), (params, (extends, implements)))) => {
                    Ok(DeclarationHead::Class {
                        modifiers,
                        at: *at,
                        name,
                        params,
                        extends,
                        implements,
                    })
                }
                Err(fault) => Err(fault),
            }
        }
        DeclarationHead::Interface {
            modifiers,
            at,
            name,
            params,
            extends,
        } => {
            let modifiers = copy_modifiers(alloc, modifiers.slice());
            let named = both(modifiers, copy_ident(alloc, name));
            let extends = copy_classes(alloc, extends.slice());
            let params = copy_params(alloc, params.slice());
            match both(named, both(params, extends)) {
                Ok(((modifiers, name), (params, extends))) => Ok(DeclarationHead::Interface {
                    modifiers,
                    at: *at,
                    name,
                    params,
                    extends,
                }),
                Err(fault) => Err(fault),
            }
        }
        DeclarationHead::Annotation {
            modifiers,
            at,
            name,
        } => {
            let modifiers = copy_modifiers(alloc, modifiers.slice());
            match both(modifiers, copy_ident(alloc, name)) {
                Ok((modifiers, name)) => Ok(DeclarationHead::Annotation {
                    modifiers,
                    at: *at,
                    name,
                }),
                Err(fault) => Err(fault),
            }
        }
    }
}

pub fn copy_method(alloc: Global, head: &MethodHead) -> Result<MethodHead, WantOfMemory>
    ensures { IfOk result (λ copy. copy ≡ head.now) }
{
    let modifiers = copy_modifiers(alloc, head.modifiers.slice());
    let params = both(modifiers, copy_some_params_of(alloc, &head.params));
    let node = copy_some_result(alloc, &head.result);
    let named = both(node, copy_ident(alloc, &head.name));
    let formals = copy_formals(alloc, head.formals.slice());
    let behind = both(formals, copy_classes(alloc, head.throws.slice()));
    match both(params, both(named, behind)) {
        Ok(((modifiers, params), ((node, name), (formals, throws)))) => Ok(MethodHead {
            modifiers,
            params,
            result: node,
            name,
            formals,
            throws,
        }),
        Err(fault) => Err(fault),
    }
}

fn copy_for_init(alloc: Global, init: &ForInit) -> Result<ForInit, WantOfMemory>
    ensures { IfOk result (λ copy. copy ≡ init.now) }
{
    match init {
        ForInit::Local(locals) => Ok(ForInit::Local(copy_locals(alloc, locals)?)),
        ForInit::Effects(effects) => Ok(ForInit::Effects(copy_exprs(alloc, effects.slice())?)),
    }
}

pub fn copy_for(alloc: Global, head: &ForHead) -> Result<ForHead, WantOfMemory>
    ensures { IfOk result (λ copy. copy ≡ head.now) }
{
    match head {
        ForHead::Basic { init, test, update } => {
            let test = copy_some_expr(alloc, test);
            let behind = both(test, copy_exprs(alloc, update.slice()));
            match both(copy_for_init(alloc, init), behind) {
                Ok((init, (test, update))) => Ok(ForHead::Basic { init, test, update }),
                Err(fault) => Err(fault),
            }
        }
        ForHead::Enhanced {
            modifiers,
            ty,
            name,
            dims,
            iterable,
        } => {
            let modifiers = copy_modifiers(alloc, modifiers.slice());
            let typed = both(modifiers, copy_type(alloc, ty));
            let behind = both(copy_ident(alloc, name), copy_expr(alloc, iterable));
            match both(typed, behind) {
                Ok(((modifiers, ty), (name, iterable))) => Ok(ForHead::Enhanced {
                    modifiers,
                    ty,
                    name,
                    dims: *dims,
                    iterable,
                }),
                Err(fault) => Err(fault),
            }
        }
    }
}

fn copy_resource(alloc: Global, resource: &Resource) -> Result<Resource, WantOfMemory>
    ensures { IfOk result (λ copy. copy ≡ resource.now) }
{
    let modifiers = copy_modifiers(alloc, resource.modifiers.slice());
    let typed = both(modifiers, copy_type(alloc, &resource.ty));
    let name = copy_ident(alloc, &resource.name);
    match both(typed, both(name, copy_expr(alloc, &resource.value))) {
        Ok(((modifiers, ty), (name, value))) => Ok(Resource {
            modifiers,
            ty,
            name,
            value,
        }),
        Err(fault) => Err(fault),
    }
}

fn copy_resource_list(
    alloc: Global,
    resources: &[Resource],
) -> Result<Items<Resource>, WantOfMemory>
    ensures { IfOk result (λ copy. copy ≡ resources.now) }
{
    let mut copies = Items::new(alloc);
    for i in 0..resources.len() {
        copies = added(copies, copy_resource(alloc, &resources[i]))?;
    }
    Ok(copies)
}

fn copy_resources(alloc: Global, resources: &Resources) -> Result<Resources, WantOfMemory>
    ensures { IfOk result (λ copy. copy ≡ resources.now) }
{
    let first = copy_resource(alloc, &resources.first);
    match both(first, copy_resource_list(alloc, resources.more.slice())) {
        Ok((first, more)) => Ok(Resources {
            first,
            more,
            trailing: resources.trailing,
        }),
        Err(fault) => Err(fault),
    }
}

pub fn copy_some_resources(
    alloc: Global,
    resources: &Option<Resources>,
) -> Result<Option<Resources>, WantOfMemory>
    ensures { IfOk result (λ copy. copy ≡ resources.now) }
{
    match resources {
        Some(resources) => Ok(Some(copy_resources(alloc, resources)?)),
        None => Ok(None),
    }
}

pub fn copy_clause_head(alloc: Global, head: &ClauseHead) -> Result<ClauseHead, WantOfMemory>
    ensures { IfOk result (λ copy. copy ≡ head.now) }
{
    match head {
        ClauseHead::If(test) => Ok(ClauseHead::If(copy_expr(alloc, test)?)),
        ClauseHead::Case(label) => Ok(ClauseHead::Case(copy_expr(alloc, label)?)),
        ClauseHead::Default => Ok(ClauseHead::Default),
        ClauseHead::Catch {
            modifiers,
            first,
            more,
            name,
        } => {
            let modifiers = copy_modifiers(alloc, modifiers.slice());
            let named = both(modifiers, copy_ident(alloc, name));
            let first = copy_class(alloc, first);
            let types = both(first, copy_classes(alloc, more.slice()));
            match both(named, types) {
                Ok(((modifiers, name), (first, more))) => Ok(ClauseHead::Catch {
                    modifiers,
                    first,
                    more,
                    name,
                }),
                Err(fault) => Err(fault),
            }
        }
        ClauseHead::Finally => Ok(ClauseHead::Finally),
    }
}
