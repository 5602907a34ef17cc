//! What is declared beside types: fields, methods and their scopes, with the types that their bodies write.
ghost use Rattle.std.specs.Prelude.{◌≡◌, ◌++◌, [], ◌∷◌, map, cond, OnOk, IfOk, true};
ghost use Rattle.jc_declares.specs.Sites.{innermost, variable_sites, listed_params, field_sites, field_walk, method_walk, implied_sites, class_sites, walked, only_uses, used_at, uses_in_each, uses_of_stmt, uses_of_var};
ghost use Rattle.jc_declares.specs.Words.{says_static};
ghost use Rattle.jc_sites.specs.Joining.{with_sites, counted};
ghost use Rattle.jc_sites.specs.Seen.{form_seen};

use crate::expressions::{push_var, push_vars};
use crate::parts::{MethodForm, Spot};
use crate::places::{ClassSite, FieldSite, MethodSite, Sites, UseSite, VariableSite};
use crate::statements::push_stmts;
use jc_declares::{ScopeForm, ScopeHead, Standing};
use jc_heads::{innermost, params_of_head, says};
use jc_rules::{Items, WantOfMemory};
use jc_tree::{
    DeclarationHead, LocalVars, MethodHead, ModifierWord, Stmt, TypeParam, TypeParams, Var,
};
use jc_types::{ClassId, MethodId, Owner};
use std::alloc::Global;

fn push_variables<'a>(
    list: &mut Items<VariableSite<'a>>,
    owner: Owner,
    params: &'a [TypeParam],
) -> Result<(), WantOfMemory>
    ensures { OnOk result (list.new ≡ list.old ++ variable_sites owner params.now) }
{
    for param in params {
        list.push(VariableSite { owner, param })?;
    }
    Ok(())
}

fn push_listed<'a>(
    list: &mut Items<VariableSite<'a>>,
    owner: Owner,
    params: &'a Option<TypeParams>,
) -> Result<(), WantOfMemory>
    ensures { OnOk result (list.new ≡ list.old ++ variable_sites owner (listed_params params.now)) }
{
    match params {
        None => Ok(()),
        Some(params) => {
            list.push(VariableSite {
                owner,
                param: &params.first,
            })?;
            push_variables(list, owner, params.more.slice())
        }
    }
}

fn push_field<'a>(
    list: &mut Items<FieldSite<'a>>,
    at: &Standing,
    vars: &'a LocalVars,
    var: &'a Var,
) -> Result<(), WantOfMemory>
    ensures { OnOk result (list.new ≡ list.old ++ field_sites at.now vars.now (var.now ∷ [])) }
{
    list.push(FieldSite {
        class: innermost(at.round.slice()),
        scope: at.scope,
        vars,
        var,
    })
}

fn push_fields<'a>(
    list: &mut Items<FieldSite<'a>>,
    at: &Standing,
    vars: &'a LocalVars,
) -> Result<(), WantOfMemory>
    ensures { OnOk result (list.new ≡ list.old ++ field_sites at.now vars.now (vars.now.first ∷ vars.now.more)) }
{
    push_field(list, at, vars, &vars.first)?;
    for var in vars.more.slice() {
        push_field(list, at, vars, var)?;
    }
    Ok(())
}

/// The types that the initialisers of fields write which are declared together.
#[tactic(auto, using(crate::proofs::Placed::placing))]
fn push_field_uses<'a>(
    uses: &mut Items<UseSite<'a>>,
    at: &Standing,
    vars: &'a LocalVars,
) -> Result<(), WantOfMemory>
    ensures { OnOk result (uses.new ≡ uses.old ++ used_at at.now at.now.scope (says_static vars.now.modifiers) (uses_in_each uses_of_var (vars.now.first ∷ vars.now.more))) }
{
    let spot = Spot {
        class: innermost(at.round.slice()),
        scope: at.scope,
        is_static: says(ModifierWord::Static, vars.modifiers.slice()),
    };
    push_var(uses, spot, &vars.first)?;
    push_vars(uses, spot, vars.more.slice())?;
    Ok(())
}

/// The fields that are declared together, and the types that their initialisers write.
pub fn push_declared<'a>(
    sites: &mut Sites<'a>,
    at: &Standing,
    vars: &'a LocalVars,
) -> Result<(), WantOfMemory>
    ensures { OnOk result (sites.new ≡ with_sites sites.old (field_walk (says_static vars.now.modifiers) vars.now at.now (counted sites.old))) }
{
    push_fields(&mut sites.fields, at, vars)?;
    push_field_uses(&mut sites.uses, at, vars)?;
    Ok(())
}

/// An initialiser, of which the types that it writes are kept.
pub fn push_initialiser<'a>(
    sites: &mut Sites<'a>,
    at: &Standing,
    is_static: bool,
    items: &'a [Stmt],
) -> Result<(), WantOfMemory>
    ensures { OnOk result (sites.new ≡ with_sites sites.old (only_uses (used_at at.now at.now.scope is_static (uses_in_each uses_of_stmt items.now)))) }
{
    let spot = Spot {
        class: innermost(at.round.slice()),
        scope: at.scope,
        is_static,
    };
    push_stmts(&mut sites.uses, spot, items)
}

/// A method with the scope that it makes.
fn push_form<'a>(
    sites: &mut Sites<'a>,
    at: &Standing,
    form: MethodForm<'a>,
) -> Result<(), WantOfMemory>
    ensures { OnOk result (sites.new ≡ with_sites sites.old (implied_sites (form_seen form.entry) at.now (counted sites.old))) }
{
    let method = sites.methods.len() as u64;
    let scope = sites.scopes.len() as u64;
    sites.methods.push(MethodSite {
        class: innermost(at.round.slice()),
        scope,
        form,
    })?;
    sites.scopes.push(ScopeHead {
        outer: Some(at.scope),
        form: ScopeForm::Method(method),
    })
}

/// A method that no source writes, if it is implied.
pub fn push_form_if<'a>(
    sites: &mut Sites<'a>,
    at: &Standing,
    form: MethodForm<'a>,
    is_implied: bool,
) -> Result<(), WantOfMemory>
    ensures { OnOk result (sites.new ≡ with_sites sites.old (walked (map implied_sites (cond is_implied (form_seen form.entry ∷ []) [])) at.now (counted sites.old))) }
{
    if is_implied {
        push_form(sites, at, form)?;
    }
    Ok(())
}

/// A method or constructor as it is written, with its type parameters, and without what its body writes.
pub fn push_headed<'a>(
    sites: &mut Sites<'a>,
    at: &Standing,
    head: &'a MethodHead,
    has_block: bool,
) -> Result<(), WantOfMemory>
    ensures { OnOk result (sites.new ≡ with_sites sites.old (method_walk head.now has_block [] at.now (counted sites.old))) }
{
    let owner = Owner::Method(MethodId(sites.methods.len() as u64));
    push_form(sites, at, MethodForm::Headed { head, has_block })?;
    push_listed(&mut sites.variables, owner, &head.params)
}

/// A method or constructor with its body.
pub fn push_method<'a>(
    sites: &mut Sites<'a>,
    at: &Standing,
    head: &'a MethodHead,
    items: &'a [Stmt],
) -> Result<(), WantOfMemory>
    ensures { OnOk result (sites.new ≡ with_sites sites.old (method_walk head.now true (uses_in_each uses_of_stmt items.now) at.now (counted sites.old))) }
{
    let spot = Spot {
        class: innermost(at.round.slice()),
        scope: sites.scopes.len() as u64,
        is_static: says(ModifierWord::Static, head.modifiers.slice()),
    };
    push_headed(sites, at, head, true)?;
    push_stmts(&mut sites.uses, spot, items)
}

fn copy_round(alloc: Global, round: &[u64]) -> Result<Items<u64>, WantOfMemory>
    ensures { IfOk result (λ copy. copy ≡ round.now) }
{
    let mut copy = Items::new(alloc);
    for class in round {
        copy.push(*class)?;
    }
    Ok(copy)
}

/// A type with its parameters and the scope of its body.
pub fn push_class<'a>(
    alloc: Global,
    sites: &mut Sites<'a>,
    at: &Standing,
    head: &'a DeclarationHead,
) -> Result<(), WantOfMemory>
    ensures { OnOk result (sites.new ≡ with_sites sites.old (class_sites head.now at.now (counted sites.old))) }
{
    let class = sites.classes.len() as u64;
    let scope = sites.scopes.len() as u64;
    let round = copy_round(alloc, at.round.slice())?;
    sites.classes.push(ClassSite {
        file: at.file,
        unit: at.unit,
        round,
        of_interface: at.of_interface,
        scope,
        head,
    })?;
    let owner = Owner::Class(ClassId(class));
    push_variables(&mut sites.variables, owner, params_of_head(head))?;
    sites.scopes.push(ScopeHead {
        outer: Some(at.scope),
        form: ScopeForm::Class(class),
    })
}
