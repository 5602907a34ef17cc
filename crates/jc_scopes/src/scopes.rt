//! The scopes of units, types and methods, each with the names that it adds (JLS 6.3, 8.1.2, 8.4.4, 8.5).
ghost use Rattle.std.specs.Prelude.{◌≡◌, ℕ, ◌++◌, ◌∷◌, [], map, IfOk, OnOk};
ghost use Rattle.jc_declares.specs.declared.heads.ScopeForm.TheVariants as scope_of;
ghost use Rattle.jc_scopes.specs.Entries.{class_entries, variable_entries};
ghost use Rattle.jc_declares.specs.Making.{class_id, first_names, unit_file, inherited_list, scope_of_form, scope_decl, outer_scope, numbered, binaries_from};
ghost use Rattle.jc_groups.specs.Members.{AreMembers};
ghost use Rattle.jc_looking.specs.Members.{known_in};
ghost use Rattle.jc_looking.specs.Scenes.{IsScene};

use crate::binary::{binary_of, round_of, unit_package};
use crate::entries::{add_classes, add_first, add_variables};
use crate::units::{demands, imports_of, own_names};
use jc_declares::{Heads, ScopeForm, ScopeHead};
use jc_groups::Members;
use jc_looking::{Inherited as Known, Scene};
use jc_rules::{Items, Text, WantOfMemory};
use jc_types::{ClassId, Inherited, MethodId, Names, Scope, ScopeId, ScopeOf};
use std::alloc::Global;

fn unit_file(heads: &Heads, unit: u64) -> u64
    ensures { result ≡ unit_file heads.now unit }
{
    match heads.units.get(unit as usize) {
        Some(head) => head.file,
        None => 0,
    }
}

fn unit_scope(
    alloc: Global,
    scene: &Scene,
    members: &Members,
    unit: u64,
) -> Result<ScopeOf, WantOfMemory>
    requires scene { IsScene scene.now.declared.heads.now scene.now.declared.index.now scene.now.imports.now }
    requires members { AreMembers scene.now.declared.heads.now members.now }
    ensures { let H = scene.now.declared.heads.now in let K = known_in scene.now.known.now in IfOk result (λ it. it ≡ scope_of_form H K (scope_of.Unit unit)) }
{
    let heads = scene.declared.heads;
    let imports = imports_of(&scene.declared, unit);
    Ok(ScopeOf::Unit {
        own: own_names(alloc, &scene.declared, members, unit)?,
        package: Text::copied(alloc, unit_package(heads, unit))?,
        demands: demands(alloc, &scene.declared, unit_file(heads, unit), imports)?,
    })
}

/// The numbers of classes as ids.
fn class_ids(alloc: Global, numbers: &[u64]) -> Result<Items<ClassId>, WantOfMemory>
    ensures { IfOk result (λ it. it ≡ map class_id numbers.now) }
{
    let mut ids = Items::new(alloc);
    for number in numbers {
        ids.push(ClassId(*number))?;
    }
    Ok(ids)
}

/// Inherited member types with their names.
fn inherited_members(
    alloc: Global,
    members: &[(Text, u64)],
) -> Result<Items<Inherited>, WantOfMemory>
    ensures { IfOk result (λ it. it ≡ inherited_list (Some members.now)) }
{
    let mut list = Items::new(alloc);
    for member in members {
        list.push(Inherited {
            name: Text::copied(alloc, member.0.str())?,
            class: ClassId(member.1),
        })?;
    }
    Ok(list)
}

/// The member types that a class inherits, if they are known.
fn inherited(
    alloc: Global,
    known: &[Option<Known>],
    class: u64,
) -> Result<Items<Inherited>, WantOfMemory>
    ensures { IfOk result (λ it. it ≡ inherited_list (known_in known.now class)) }
{
    match known.get(class as usize) {
        Some(Some(known)) => inherited_members(alloc, known.members()),
        _ => Ok(Items::new(alloc)),
    }
}

fn class_names(alloc: Global, heads: &Heads, numbers: &[u64]) -> Result<Names, WantOfMemory>
    ensures { IfOk result (λ it. it ≡ first_names [] (class_entries heads.now numbers.now)) }
{
    let mut names = Names::new(alloc);
    add_classes(alloc, &mut names, heads, numbers)?;
    Ok(names)
}

fn variable_names(alloc: Global, heads: &Heads, numbers: &[u64]) -> Result<Names, WantOfMemory>
    ensures { IfOk result (λ it. it ≡ first_names [] (variable_entries heads.now numbers.now)) }
{
    let mut names = Names::new(alloc);
    add_variables(alloc, &mut names, heads, numbers)?;
    Ok(names)
}

#[tactic(auto, using(crate::proofs::Entered::types_entered, crate::proofs::Entered::class_variables_entered))]
fn type_scope(
    alloc: Global,
    scene: &Scene,
    members: &Members,
    class: u64,
) -> Result<ScopeOf, WantOfMemory>
    requires { AreMembers scene.now.declared.heads.now members.now }
    ensures { let H = scene.now.declared.heads.now in let K = known_in scene.now.known.now in IfOk result (λ it. it ≡ scope_of_form H K (scope_of.Class class)) }
{
    let heads = scene.declared.heads;
    Ok(ScopeOf::Type {
        class: ClassId(class),
        round: class_ids(alloc, round_of(heads, class))?,
        params: variable_names(alloc, heads, members.class_variables.group(class))?,
        declared: class_names(alloc, heads, members.types.group(class))?,
        inherited: inherited(alloc, scene.known, class)?,
    })
}

#[tactic(auto, using(crate::proofs::Entered::method_variables_entered))]
fn method_scope(
    alloc: Global,
    scene: &Scene,
    members: &Members,
    method: u64,
) -> Result<ScopeOf, WantOfMemory>
    requires { AreMembers scene.now.declared.heads.now members.now }
    ensures { let H = scene.now.declared.heads.now in let K = known_in scene.now.known.now in IfOk result (λ it. it ≡ scope_of_form H K (scope_of.Method method)) }
{
    let heads = scene.declared.heads;
    Ok(ScopeOf::Method {
        method: MethodId(method),
        params: variable_names(alloc, heads, members.method_variables.group(method))?,
    })
}

fn scope_of(
    alloc: Global,
    scene: &Scene,
    members: &Members,
    form: ScopeForm,
) -> Result<ScopeOf, WantOfMemory>
    requires scene { IsScene scene.now.declared.heads.now scene.now.declared.index.now scene.now.imports.now }
    requires members { AreMembers scene.now.declared.heads.now members.now }
    ensures { let H = scene.now.declared.heads.now in let K = known_in scene.now.known.now in IfOk result (λ it. it ≡ scope_of_form H K form) }
{
    match form {
        ScopeForm::Unit(unit) => unit_scope(alloc, scene, members, unit),
        ScopeForm::Class(class) => type_scope(alloc, scene, members, class),
        ScopeForm::Method(method) => method_scope(alloc, scene, members, method),
    }
}

fn outer_scope(outer: Option<u64>) -> Option<ScopeId>
    ensures { result ≡ outer_scope outer }
{
    match outer {
        None => None,
        Some(scope) => Some(ScopeId(scope)),
    }
}

/// Adds a scope with its names.
fn push_scope(
    alloc: Global,
    list: &mut Items<Scope>,
    scene: &Scene,
    members: &Members,
    head: &ScopeHead,
) -> Result<(), WantOfMemory>
    requires scene { IsScene scene.now.declared.heads.now scene.now.declared.index.now scene.now.imports.now }
    requires members { AreMembers scene.now.declared.heads.now members.now }
    ensures { (k : ℕ) → let H = scene.now.declared.heads.now in let K = known_in scene.now.known.now in OnOk result (list.new ≡ list.old ++ scope_decl H K k head.now ∷ []) }
{
    let of = scope_of(alloc, scene, members, head.form)?;
    list.push(Scope {
        outer: outer_scope(head.outer),
        of,
    })
}

/// Adds all scopes of a program with their names.
pub fn push_scopes(
    alloc: Global,
    list: &mut Items<Scope>,
    scene: &Scene,
    members: &Members,
) -> Result<(), WantOfMemory>
    requires scene { IsScene scene.now.declared.heads.now scene.now.declared.index.now scene.now.imports.now }
    requires members { AreMembers scene.now.declared.heads.now members.now }
    ensures { let H = scene.now.declared.heads.now in let K = known_in scene.now.known.now in OnOk result (list.new ≡ list.old ++ numbered (scope_decl H K) 0 H.scopes) }
{
    for head in scene.declared.heads.scopes.slice() {
        push_scope(alloc, list, scene, members, head)?;
    }
    Ok(())
}

/// The classes of a program by their binary names, each name once, where it stands first.
pub fn index_of_classes(alloc: Global, heads: &Heads) -> Result<Names, WantOfMemory>
    ensures { IfOk result (λ it. it ≡ first_names [] (binaries_from heads.now 0 heads.now.classes)) }
{
    let mut names = Names::new(alloc);
    for number in 0..heads.classes.len() {
        let name = binary_of(alloc, heads, number as u64)?;
        add_first(alloc, &mut names, name.as_str(), number as u64)?;
    }
    Ok(names)
}
