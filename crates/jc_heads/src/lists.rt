//! What is declared beside types: parameters, fields, methods and scopes.
ghost use Rattle.std.specs.Prelude.{◌≡◌, ◌++◌, [], ◌∷◌, map, cond, OnOk, Bool};
ghost use Rattle.jc_declares.specs.Sites.{innermost, variable_sites, listed_params, field_walk, method_walk, implied_sites, class_sites, walked, MethodForm, Uses};
ghost use Rattle.jc_declares.specs.Heads.{heads_of, variable_head};
ghost use Rattle.jc_heads.specs.Joining.{joined_heads, counted, with_method, field_of_var};

use crate::classes::{class_head, params_of_head};
use jc_declares::{FieldHead, Heads, MethodPlace, ScopeForm, ScopeHead, Standing, VariableHead};
use jc_rules::{Items, WantOfMemory};
use jc_tree::{DeclarationHead, LocalVars, MethodHead, TypeParam, TypeParams, Var, copy_text};
use jc_types::{ClassId, MethodId, Owner};
use std::alloc::Global;

/// The innermost of the classes round what is declared.
pub fn innermost(round: &[u64]) -> u64
    ensures { result ≡ innermost round.now }
{
    match round.first() {
        Some(class) => *class,
        None => 0,
    }
}

fn push_variable(
    alloc: Global,
    list: &mut Items<VariableHead>,
    owner: Owner,
    param: &TypeParam,
) -> Result<(), WantOfMemory>
    ensures { OnOk result (list.new ≡ list.old ++ variable_head (record { owner = owner; param = param.now }) ∷ []) }
{
    list.push(VariableHead {
        owner,
        at: param.name.at,
        name: copy_text(alloc, &param.name.text)?,
    })
}

pub fn push_variables(
    alloc: Global,
    list: &mut Items<VariableHead>,
    owner: Owner,
    params: &[TypeParam],
) -> Result<(), WantOfMemory>
    ensures { OnOk result (list.new ≡ list.old ++ map variable_head (variable_sites owner params.now)) }
{
    for param in params {
        push_variable(alloc, list, owner, param)?;
    }
    Ok(())
}

fn push_listed(
    alloc: Global,
    list: &mut Items<VariableHead>,
    owner: Owner,
    params: &Option<TypeParams>,
) -> Result<(), WantOfMemory>
    ensures { OnOk result (list.new ≡ list.old ++ map variable_head (variable_sites owner (listed_params params.now))) }
{
    match params {
        None => Ok(()),
        Some(params) => {
            push_variable(alloc, list, owner, &params.first)?;
            push_variables(alloc, list, owner, params.more.slice())
        }
    }
}

fn push_field(
    alloc: Global,
    list: &mut Items<FieldHead>,
    class: u64,
    var: &Var,
) -> Result<(), WantOfMemory>
    ensures { OnOk result (list.new ≡ list.old ++ field_of_var class var.now ∷ []) }
{
    list.push(FieldHead {
        class,
        at: var.name.at,
        name: copy_text(alloc, &var.name.text)?,
    })
}

fn push_vars(
    alloc: Global,
    list: &mut Items<FieldHead>,
    class: u64,
    vars: &[Var],
) -> Result<(), WantOfMemory>
    ensures { OnOk result (list.new ≡ list.old ++ map (field_of_var class) vars.now) }
{
    for var in vars {
        push_field(alloc, list, class, var)?;
    }
    Ok(())
}

/// The fields that are declared together.
pub fn push_fields(
    alloc: Global,
    heads: &mut Heads,
    at: &Standing,
    vars: &LocalVars,
) -> Result<(), WantOfMemory>
    ensures { (is_static : Bool) → OnOk result (heads.new ≡ joined_heads heads.old (heads_of (field_walk is_static vars.now at.now (counted heads.old)))) }
{
    let class = innermost(at.round.slice());
    push_field(alloc, &mut heads.fields, class, &vars.first)?;
    push_vars(alloc, &mut heads.fields, class, vars.more.slice())?;
    Ok(())
}

/// A method with the scope that it makes.
fn push_place(heads: &mut Heads, at: &Standing) -> Result<(), WantOfMemory>
    ensures { OnOk result (heads.new ≡ with_method at.now heads.old) }
{
    let method = heads.methods.len() as u64;
    let scope = heads.scopes.len() as u64;
    heads.methods.push(MethodPlace {
        class: innermost(at.round.slice()),
        scope,
    })?;
    heads.scopes.push(ScopeHead {
        outer: Some(at.scope),
        form: ScopeForm::Method(method),
    })
}

/// A method that no source writes.
fn push_implied(heads: &mut Heads, at: &Standing) -> Result<(), WantOfMemory>
    ensures { (form : MethodForm) → OnOk result (heads.new ≡ joined_heads heads.old (heads_of (implied_sites form at.now (counted heads.old)))) }
{
    push_place(heads, at)
}

/// A method that no source writes, if it is implied.
pub fn push_implied_if(
    heads: &mut Heads,
    at: &Standing,
    is_implied: bool,
) -> Result<(), WantOfMemory>
    ensures { (form : MethodForm) → OnOk result (heads.new ≡ joined_heads heads.old (heads_of (walked (map implied_sites (cond is_implied (form ∷ []) [])) at.now (counted heads.old)))) }
{
    if is_implied {
        push_implied(heads, at)?;
    }
    Ok(())
}

/// A method or constructor as it is written, with its type parameters.
pub fn push_method(
    alloc: Global,
    heads: &mut Heads,
    at: &Standing,
    head: &MethodHead,
) -> Result<(), WantOfMemory>
    ensures { (has_block : Bool) (uses : Uses) → OnOk result (heads.new ≡ joined_heads heads.old (heads_of (method_walk head.now has_block uses at.now (counted heads.old)))) }
{
    let owner = Owner::Method(MethodId(heads.methods.len() as u64));
    push_place(heads, at)?;
    push_listed(alloc, &mut heads.variables, owner, &head.params)
}

/// A type with its parameters and the scope of its body.
pub fn push_class(
    alloc: Global,
    heads: &mut Heads,
    at: &Standing,
    head: &DeclarationHead,
) -> Result<(), WantOfMemory>
    ensures { OnOk result (heads.new ≡ joined_heads heads.old (heads_of (class_sites head.now at.now (counted heads.old)))) }
{
    let class = heads.classes.len() as u64;
    let scope = heads.scopes.len() as u64;
    heads.classes.push(class_head(alloc, at, scope, head)?)?;
    let owner = Owner::Class(ClassId(class));
    push_variables(alloc, &mut heads.variables, owner, params_of_head(head))?;
    heads.scopes.push(ScopeHead {
        outer: Some(at.scope),
        form: ScopeForm::Class(class),
    })
}
