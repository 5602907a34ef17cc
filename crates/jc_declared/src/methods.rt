//! Methods, constructors and static initialisers (JLS 8.4, 8.7, 8.8, 9.4).
ghost use Rattle.std.specs.Prelude.{◌≡◌, ℕ, ◌+◌, ◌++◌, ◌∷◌, [], map, slice_get, IfOk, OnOk};
ghost use Rattle.jc_declares.specs.Heads.{name_of};
ghost use Rattle.jc_declares.specs.Looking.{Knowledge};
ghost use Rattle.jc_declares.specs.Sites as site;
ghost use Rattle.jc_declares.specs.Making.{types, one_more, written_formal, param_name, written_result, kind_of_method, class_at_in, implied_method, method_decl, numbered};
ghost use Rattle.jc_declared.specs.Parts.{method_in};
ghost use Rattle.jc_groups.specs.Members.{AreMembers};
ghost use Rattle.jc_looking.specs.Members.{known_in};
ghost use Rattle.jc_looking.specs.Scenes.{IsScene};
ghost use Rattle.jc_written.specs.At.{reading_at};

use crate::places::{class_file, is_interface};
use crate::types::{class_types, no_types, push_written};
use crate::variables::variable_ids;
use jc_declares::{Heads, MethodPlace};
use jc_groups::Members;
use jc_heads::says;
use jc_looking::{Scene, access_of};
use jc_modifiers::{
    implied_constructor_modifiers, is_variable_arity, method_modifiers,
    static_initialiser_modifiers,
};
use jc_rules::{Items, Place, Text, WantOfMemory};
use jc_sites::{MethodForm, MethodSite};
use jc_tree::{Formal, MethodHead, ModifierWord, ResultType, copy_text, first_offset_of_method};
use jc_types::{
    ClassId, MethodDecl, MethodKind, Modifiers, ParamName, ScopeId, Written, WrittenTypes,
};
use jc_written::{Reading, method_reading, written_type};
use std::alloc::Global;

/// The dimensions of a parameter's type beside those that are written with it: one of variable arity is an array of what is written
/// (JLS 8.4.1).
fn formal_dims(formal: &Formal) -> u64
    ensures { result ≡ formal.now.dims + one_more formal.now.variable_arity }
{
    u64::from(formal.dims) + u64::from(formal.variable_arity)
}

/// The types of parameters.
#[tactic(auto, using(crate::proofs::Behind::behinds))]
fn formal_types(
    alloc: Global,
    scene: &Scene,
    reading: Reading,
    file: u64,
    formals: &[Formal],
) -> Result<WrittenTypes, WantOfMemory>
    requires { IsScene scene.now.declared.heads.now scene.now.declared.index.now scene.now.imports.now }
    ensures { let H = scene.now.declared.heads.now in let K = known_in scene.now.known.now in IfOk result (λ it. it ≡ types (map (written_formal H K file (reading_at H K reading)) formals.now)) }
{
    let mut list = no_types(alloc);
    for formal in formals {
        let dims = formal_dims(formal);
        let written = written_type(alloc, scene, reading, file, &formal.ty, dims)?;
        push_written(&mut list, written)?;
    }
    Ok(list)
}

fn param_name(alloc: Global, file: u64, formal: &Formal) -> Result<ParamName, WantOfMemory>
    ensures { IfOk result (λ it. it ≡ param_name file formal.now) }
{
    Ok(ParamName {
        place: Place {
            file,
            at: formal.name.at,
        },
        name: copy_text(alloc, &formal.name.text)?,
        is_final: says(ModifierWord::Final, formal.modifiers.slice()),
    })
}

fn param_names(
    alloc: Global,
    file: u64,
    formals: &[Formal],
) -> Result<Items<ParamName>, WantOfMemory>
    ensures { IfOk result (λ it. it ≡ map (param_name file) formals.now) }
{
    let mut list = Items::new(alloc);
    for formal in formals {
        list.push(param_name(alloc, file, formal)?)?;
    }
    Ok(list)
}

fn written_result(
    alloc: Global,
    scene: &Scene,
    reading: Reading,
    file: u64,
    result_type: &Option<ResultType>,
) -> Result<Option<Written>, WantOfMemory>
    requires { IsScene scene.now.declared.heads.now scene.now.declared.index.now scene.now.imports.now }
    ensures { let H = scene.now.declared.heads.now in let K = known_in scene.now.known.now in IfOk result (λ it. it ≡ written_result H K file (reading_at H K reading) result_type.now) }
{
    match result_type {
        None => Ok(None),
        Some(ResultType::Void { .. }) => Ok(None),
        Some(ResultType::Type(ty)) => {
            Ok(Some(written_type(alloc, scene, reading, file, ty, 0)?))
        }
    }
}

fn kind_of_method(result_type: &Option<ResultType>) -> MethodKind
    ensures { result ≡ kind_of_method result_type.now }
{
    match result_type {
        None => MethodKind::Constructor,
        Some(_) => MethodKind::Method,
    }
}

/// Where a method of a number is declared: its file, its class and its scope.
#[derive(Clone, Copy)]
struct MethodAt {
    file: u64,
    number: u64,
    class: u64,
    scope: u64,
}

/// A method or constructor as it is written, whose types are read in one way.
fn method_at(
    alloc: Global,
    scene: &Scene,
    members: &Members,
    reading: Reading,
    at: MethodAt,
    head: &MethodHead,
    has_block: bool,
) -> Result<MethodDecl, WantOfMemory>
    requires scene { IsScene scene.now.declared.heads.now scene.now.declared.index.now scene.now.imports.now }
    requires members { AreMembers scene.now.declared.heads.now members.now }
    ensures { let H = scene.now.declared.heads.now in let K = known_in scene.now.known.now in IfOk result (λ it. it ≡ method_in H K (reading_at H K reading) at.file at.number at.class at.scope head.now has_block) }
{
    let modifiers = head.modifiers.slice();
    let formals = head.formals.slice();
    Ok(MethodDecl {
        place: Place {
            file: at.file,
            at: first_offset_of_method(head),
        },
        class: ClassId(at.class),
        name: copy_text(alloc, &head.name.text)?,
        kind: kind_of_method(&head.result),
        modifiers: method_modifiers(is_interface(scene.declared.heads, at.class), modifiers),
        scope: ScopeId(at.scope),
        vars: variable_ids(alloc, members.method_variables.group(at.number))?,
        params: formal_types(alloc, scene, reading, at.file, formals)?,
        param_names: param_names(alloc, at.file, formals)?,
        result: written_result(alloc, scene, reading, at.file, &head.result)?,
        thrown: class_types(alloc, scene, reading, at.file, head.throws.slice())?,
        is_variable_arity: is_variable_arity(formals),
        has_body: has_block,
    })
}

/// A method or constructor as it is written.
fn headed_method(
    alloc: Global,
    scene: &Scene,
    members: &Members,
    number: u64,
    at: MethodPlace,
    head: &MethodHead,
    has_block: bool,
) -> Result<MethodDecl, WantOfMemory>
    requires scene { IsScene scene.now.declared.heads.now scene.now.declared.index.now scene.now.imports.now }
    requires members { AreMembers scene.now.declared.heads.now members.now }
    ensures { let H = scene.now.declared.heads.now in let K = known_in scene.now.known.now in IfOk result (λ it. it ≡ method_decl H K number (record { class = at.class; scope = at.scope; form = site.Headed head.now has_block })) }
{
    let is_static = says(ModifierWord::Static, head.modifiers.slice());
    let reading = method_reading(number, at.class, is_static);
    let file = class_file(scene.declared.heads, at.class);
    let place = MethodAt {
        file,
        number,
        class: at.class,
        scope: at.scope,
    };
    let method = method_at(alloc, scene, members, reading, place, head, has_block)?;
    Ok(method)
}

/// The offset of a class's declaration.
fn class_at(heads: &Heads, class: u64) -> u32
    ensures { result ≡ class_at_in (slice_get heads.now.classes class) }
{
    match heads.classes.get(class as usize) {
        Some(head) => head.at,
        None => 0,
    }
}

/// What no source writes, at its class.
fn implied_method(
    alloc: Global,
    heads: &Heads,
    at: MethodPlace,
    name: Text,
    kind: MethodKind,
    modifiers: Modifiers,
) -> MethodDecl
    ensures { (form : site.MethodForm) → result ≡ implied_method heads.now (record { class = at.class; scope = at.scope; form = form }) name kind modifiers }
{
    MethodDecl {
        place: Place {
            file: class_file(heads, at.class),
            at: class_at(heads, at.class),
        },
        class: ClassId(at.class),
        name,
        kind,
        modifiers,
        scope: ScopeId(at.scope),
        vars: Items::new(alloc),
        params: no_types(alloc),
        param_names: Items::new(alloc),
        result: None,
        thrown: no_types(alloc),
        is_variable_arity: false,
        has_body: true,
    }
}

fn class_name(heads: &Heads, class: u64) -> &str
    ensures { result.now ≡ name_of heads.now class }
{
    match heads.classes.get(class as usize) {
        Some(head) => head.name.str(),
        None => "",
    }
}

/// A constructor that no source writes, which has the access of its class (JLS 8.8.9).
fn implied_constructor(
    alloc: Global,
    heads: &Heads,
    at: MethodPlace,
) -> Result<MethodDecl, WantOfMemory>
    ensures { (K : Knowledge) (m : ℕ) → IfOk result (λ it. it ≡ method_decl heads.now K m (record { class = at.class; scope = at.scope; form = site.ImpliedConstructor })) }
{
    let name = Text::copied(alloc, class_name(heads, at.class))?;
    let modifiers = implied_constructor_modifiers(access_of(heads, at.class));
    let kind = MethodKind::ImpliedConstructor;
    Ok(implied_method(alloc, heads, at, name, kind, modifiers))
}

/// What sets a type's static fields and runs its static blocks, under the name that class files give it (JVMS 2.9).
fn static_initialiser(
    alloc: Global,
    heads: &Heads,
    at: MethodPlace,
) -> Result<MethodDecl, WantOfMemory>
    ensures { (K : Knowledge) (m : ℕ) → IfOk result (λ it. it ≡ method_decl heads.now K m (record { class = at.class; scope = at.scope; form = site.StaticInitialiser })) }
{
    let name = Text::copied(alloc, "<clinit>")?;
    let modifiers = static_initialiser_modifiers();
    let kind = MethodKind::StaticInitialiser;
    Ok(implied_method(alloc, heads, at, name, kind, modifiers))
}

/// A method, written or implied.
fn method_decl(
    alloc: Global,
    scene: &Scene,
    members: &Members,
    method: u64,
    site: &MethodSite,
) -> Result<MethodDecl, WantOfMemory>
    requires scene { IsScene scene.now.declared.heads.now scene.now.declared.index.now scene.now.imports.now }
    requires members { AreMembers scene.now.declared.heads.now members.now }
    ensures { let H = scene.now.declared.heads.now in let K = known_in scene.now.known.now in IfOk result (λ it. it ≡ method_decl H K method site.now) }
{
    let at = MethodPlace {
        class: site.class,
        scope: site.scope,
    };
    match site.form {
        MethodForm::Headed { head, has_block } => {
            let decl = headed_method(alloc, scene, members, method, at, head, has_block)?;
            Ok(decl)
        }
        MethodForm::ImpliedConstructor => {
            let decl = implied_constructor(alloc, scene.declared.heads, at)?;
            Ok(decl)
        }
        MethodForm::StaticInitialiser => {
            let decl = static_initialiser(alloc, scene.declared.heads, at)?;
            Ok(decl)
        }
    }
}

/// Adds a method.
fn push_method(
    alloc: Global,
    list: &mut Items<MethodDecl>,
    scene: &Scene,
    members: &Members,
    method: u64,
    site: &MethodSite,
) -> Result<(), WantOfMemory>
    requires scene { IsScene scene.now.declared.heads.now scene.now.declared.index.now scene.now.imports.now }
    requires members { AreMembers scene.now.declared.heads.now members.now }
    ensures { let H = scene.now.declared.heads.now in let K = known_in scene.now.known.now in OnOk result (list.new ≡ list.old ++ method_decl H K method site.now ∷ []) }
{
    let decl = method_decl(alloc, scene, members, method, site)?;
    list.push(decl)
}

/// Adds all methods of a program.
pub fn push_methods(
    alloc: Global,
    list: &mut Items<MethodDecl>,
    scene: &Scene,
    members: &Members,
    sites: &[MethodSite],
) -> Result<(), WantOfMemory>
    requires scene { IsScene scene.now.declared.heads.now scene.now.declared.index.now scene.now.imports.now }
    requires members { AreMembers scene.now.declared.heads.now members.now }
    ensures { let H = scene.now.declared.heads.now in let K = known_in scene.now.known.now in OnOk result (list.new ≡ list.old ++ numbered (method_decl H K) 0 sites.now) }
{
    for number in 0..sites.len() {
        push_method(alloc, list, scene, members, number as u64, &sites[number])?;
    }
    Ok(())
}
