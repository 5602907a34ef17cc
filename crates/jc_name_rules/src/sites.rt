//! What stands twice in declarations (305, 307), their modifiers (309), and the names of the types that they write (302, 303, 310, 311).
ghost use Rattle.std.specs.Prelude.{◌≡◌, ℕ, Bool, IfOk};
ghost use Rattle.jc_types.specs.Breaks.{least};
ghost use Rattle.jc_declares.specs.Heads.{superclass_trees};
ghost use Rattle.jc_declares.specs.HeadBreaks.{broken_at, unless, class_file};
ghost use Rattle.jc_declares.specs.Readings.{head_reading, body_reading};
ghost use Rattle.jc_declares.specs.Writing.{wrote_type};
ghost use Rattle.jc_declares.specs.Breaks.{in_file, class_modifier_breaks, field_modifier_breaks, formal_modifier_breaks, method_modifier_breaks, class_trees_broken, bounds_broken, formals_broken, result_broken, method_broken, is_static_field, class_site_breaks, method_site_breaks, field_site_breaks, use_site_breaks};
ghost use Rattle.jc_declares.specs.Sites.{listed_params, Headed};
ghost use Rattle.jc_looking.specs.Members.{known_in};
ghost use Rattle.jc_looking.specs.Scenes.{IsScene};
ghost use Rattle.jc_written.specs.At.{reading_at};
ghost use Rattle.jc_name_rules.specs.HeadTypes.{class_types, head_types};

use crate::members::class_file;
use crate::repeated::{class_repeated, formals_repeated};
use crate::supers::is_interface;
use jc_declares::Heads;
use jc_heads::{
    head_at, interface_trees, is_interface_head, is_top, modifiers_in_head, params_of_head, says,
};
use jc_looking::Scene;
use jc_modifiers::{class_fits, field_fits, local_fits, method_fits};
use jc_rules::{Place, Refusal, Rule, WantOfMemory};
use jc_sites::{BodyPart, ClassSite, FieldSite, MethodForm, MethodSite, UseSite};
use jc_tree::{
    ClassTree, DeclarationHead, Formal, MethodHead, ModifierWord, ResultType, TypeParam,
    TypeParams, TypeTree, first_offset_of_formal, first_offset_of_locals, first_offset_of_method,
};
use jc_written::{
    Reading, base_broken, body_reading, class_broken, head_reading, method_reading, or_break,
    reading_in_scope, type_broken,
};
use std::alloc::Global;

/// Rule 309 is broken at a place unless modifiers fit there.
fn unless_fit(fit: bool, file: u64, at: u32, found: Option<Refusal>) -> Option<Refusal>
    ensures { result ≡ least found (unless fit (broken_at 309 file at)) }
{
    if fit {
        return found;
    }
    or_break(found, Rule::known(309), Place { file, at })
}

#[tactic(auto, using(crate::proofs::Counting::counting))]
fn trees_broken(
    alloc: Global,
    scene: &Scene,
    reading: Reading,
    file: u64,
    trees: &[ClassTree],
    found: Option<Refusal>,
) -> Result<Option<Refusal>, WantOfMemory>
    requires { IsScene scene.now.declared.heads.now scene.now.declared.index.now scene.now.imports.now }
    ensures { let H = scene.now.declared.heads.now in let K = known_in scene.now.known.now in IfOk result (λ it. it ≡ least found (in_file file (class_trees_broken H K (reading_at H K reading) trees.now))) }
{
    let mut found = found;
    for tree in trees {
        found = class_broken(alloc, scene, reading, file, tree, found)?;
    }
    Ok(found)
}

#[tactic(auto, using(crate::proofs::Counting::counting))]
fn bounds_broken(
    alloc: Global,
    scene: &Scene,
    reading: Reading,
    file: u64,
    params: &[TypeParam],
    found: Option<Refusal>,
) -> Result<Option<Refusal>, WantOfMemory>
    requires { IsScene scene.now.declared.heads.now scene.now.declared.index.now scene.now.imports.now }
    ensures { let H = scene.now.declared.heads.now in let K = known_in scene.now.known.now in IfOk result (λ it. it ≡ least found (in_file file (bounds_broken H K (reading_at H K reading) params.now))) }
{
    let mut found = found;
    for param in params {
        found = trees_broken(alloc, scene, reading, file, param.bounds.slice(), found)?;
    }
    Ok(found)
}

#[tactic(auto, using(crate::proofs::Counting::counting))]
fn superclass_broken(
    alloc: Global,
    scene: &Scene,
    reading: Reading,
    file: u64,
    head: &DeclarationHead,
    found: Option<Refusal>,
) -> Result<Option<Refusal>, WantOfMemory>
    requires { IsScene scene.now.declared.heads.now scene.now.declared.index.now scene.now.imports.now }
    ensures { let H = scene.now.declared.heads.now in let K = known_in scene.now.known.now in IfOk result (λ it. it ≡ least found (in_file file (class_trees_broken H K (reading_at H K reading) (superclass_trees head.now)))) }
{
    match head {
        DeclarationHead::Class {
            extends: Some(tree),
            ..
        } => class_broken(alloc, scene, reading, file, tree, found),
        DeclarationHead::Class { extends: None, .. } => Ok(found),
        DeclarationHead::Interface { .. } => Ok(found),
        DeclarationHead::Annotation { .. } => Ok(found),
    }
}

fn class_modifiers_broken(site: &ClassSite, found: Option<Refusal>) -> Option<Refusal>
    ensures { result ≡ least found (class_modifier_breaks site.now) }
{
    let fit = class_fits(
        is_interface_head(site.head),
        !is_top(site.round.slice()),
        site.of_interface,
        modifiers_in_head(site.head),
    );
    unless_fit(fit, site.file, head_at(site.head), found)
}

/// The first rule that the types break which the head of a type writes.
fn class_types_broken(
    alloc: Global,
    scene: &Scene,
    reading: Reading,
    file: u64,
    head: &DeclarationHead,
    found: Option<Refusal>,
) -> Result<Option<Refusal>, WantOfMemory>
    requires { IsScene scene.now.declared.heads.now scene.now.declared.index.now scene.now.imports.now }
    ensures { let H = scene.now.declared.heads.now in let K = known_in scene.now.known.now in IfOk result (λ it. it ≡ least found (in_file file (class_types H K (reading_at H K reading) head.now))) }
{
    let found = bounds_broken(alloc, scene, reading, file, params_of_head(head), found)?;
    let found = superclass_broken(alloc, scene, reading, file, head, found)?;
    let found = trees_broken(alloc, scene, reading, file, interface_trees(head), found)?;
    Ok(found)
}

/// The first rule that the types break which the head of a class writes.
fn class_head_broken(
    alloc: Global,
    scene: &Scene,
    number: u64,
    file: u64,
    head: &DeclarationHead,
    found: Option<Refusal>,
) -> Result<Option<Refusal>, WantOfMemory>
    requires { IsScene scene.now.declared.heads.now scene.now.declared.index.now scene.now.imports.now }
    ensures { let H = scene.now.declared.heads.now in let K = known_in scene.now.known.now in IfOk result (λ it. it ≡ least found (in_file file (class_types H K (head_reading H K number) head.now))) }
{
    let reading = head_reading(number);
    let found = class_types_broken(alloc, scene, reading, file, head, found)?;
    Ok(found)
}

/// The first rule that the head of a type breaks by its modifiers and the types that it writes.
#[tactic(auto, using(crate::proofs::Counting::counting))]
pub fn class_site_broken(
    alloc: Global,
    scene: &Scene,
    number: u64,
    site: &ClassSite,
    found: Option<Refusal>,
) -> Result<Option<Refusal>, WantOfMemory>
    requires { IsScene scene.now.declared.heads.now scene.now.declared.index.now scene.now.imports.now }
    ensures { let H = scene.now.declared.heads.now in let K = known_in scene.now.known.now in IfOk result (λ it. it ≡ least found (class_site_breaks H K number site.now)) }
{
    let found = class_repeated(alloc, scene, number, site.file, site.head, found)?;
    let found = class_modifiers_broken(site, found);
    let found = class_head_broken(alloc, scene, number, site.file, site.head, found)?;
    Ok(found)
}

#[tactic(auto, using(crate::proofs::Counting::counting))]
fn formal_modifiers_broken(file: u64, formals: &[Formal], found: Option<Refusal>) -> Option<Refusal>
    ensures { result ≡ least found (formal_modifier_breaks file formals.now) }
{
    let mut found = found;
    for formal in formals {
        let fit = local_fits(formal.modifiers.slice());
        found = unless_fit(fit, file, first_offset_of_formal(formal), found);
    }
    found
}

#[tactic(auto, using(crate::proofs::Counting::counting))]
fn head_modifiers_broken(
    heads: &Heads,
    class: u64,
    head: &MethodHead,
    found: Option<Refusal>,
) -> Option<Refusal>
    ensures { (has_block : Bool) → result ≡ least found (method_modifier_breaks heads.now class (Headed head.now has_block)) }
{
    let file = class_file(heads, class);
    let fit = method_fits(is_interface(heads, class), head);
    let found = unless_fit(fit, file, first_offset_of_method(head), found);
    formal_modifiers_broken(file, head.formals.slice(), found)
}

#[tactic(auto, using(crate::proofs::Counting::counting))]
fn params_broken(
    alloc: Global,
    scene: &Scene,
    reading: Reading,
    file: u64,
    params: &Option<TypeParams>,
    found: Option<Refusal>,
) -> Result<Option<Refusal>, WantOfMemory>
    requires { IsScene scene.now.declared.heads.now scene.now.declared.index.now scene.now.imports.now }
    ensures { let H = scene.now.declared.heads.now in let K = known_in scene.now.known.now in IfOk result (λ it. it ≡ least found (in_file file (bounds_broken H K (reading_at H K reading) (listed_params params.now)))) }
{
    let Some(params) = params else {
        return Ok(found);
    };
    let first = params.first.bounds.slice();
    let found = trees_broken(alloc, scene, reading, file, first, found)?;
    bounds_broken(alloc, scene, reading, file, params.more.slice(), found)
}

fn result_broken(
    alloc: Global,
    scene: &Scene,
    reading: Reading,
    file: u64,
    written: &Option<ResultType>,
    found: Option<Refusal>,
) -> Result<Option<Refusal>, WantOfMemory>
    requires { IsScene scene.now.declared.heads.now scene.now.declared.index.now scene.now.imports.now }
    ensures { let H = scene.now.declared.heads.now in let K = known_in scene.now.known.now in IfOk result (λ it. it ≡ least found (in_file file (result_broken H K (reading_at H K reading) written.now))) }
{
    match written {
        None => Ok(found),
        Some(ResultType::Void { .. }) => Ok(found),
        Some(ResultType::Type(ty)) => type_broken(alloc, scene, reading, file, ty, found),
    }
}

#[tactic(auto, using(crate::proofs::Counting::counting))]
fn formals_broken(
    alloc: Global,
    scene: &Scene,
    reading: Reading,
    file: u64,
    formals: &[Formal],
    found: Option<Refusal>,
) -> Result<Option<Refusal>, WantOfMemory>
    requires { IsScene scene.now.declared.heads.now scene.now.declared.index.now scene.now.imports.now }
    ensures { let H = scene.now.declared.heads.now in let K = known_in scene.now.known.now in IfOk result (λ it. it ≡ least found (in_file file (formals_broken H K (reading_at H K reading) formals.now))) }
{
    let mut found = found;
    for formal in formals {
        found = type_broken(alloc, scene, reading, file, &formal.ty, found)?;
    }
    Ok(found)
}

/// The first rule that the types break which the head of a method writes, read in one way.
fn head_types_broken(
    alloc: Global,
    scene: &Scene,
    reading: Reading,
    file: u64,
    head: &MethodHead,
    found: Option<Refusal>,
) -> Result<Option<Refusal>, WantOfMemory>
    requires { IsScene scene.now.declared.heads.now scene.now.declared.index.now scene.now.imports.now }
    ensures { let H = scene.now.declared.heads.now in let K = known_in scene.now.known.now in IfOk result (λ it. it ≡ least found (in_file file (head_types H K (reading_at H K reading) head.now))) }
{
    let found = params_broken(alloc, scene, reading, file, &head.params, found)?;
    let found = result_broken(alloc, scene, reading, file, &head.result, found)?;
    let found = formals_broken(alloc, scene, reading, file, head.formals.slice(), found)?;
    let found = trees_broken(alloc, scene, reading, file, head.throws.slice(), found)?;
    Ok(found)
}

/// The first rule that the types break which the head of a method writes.
fn head_broken(
    alloc: Global,
    scene: &Scene,
    method: u64,
    class: u64,
    head: &MethodHead,
    found: Option<Refusal>,
) -> Result<Option<Refusal>, WantOfMemory>
    requires { IsScene scene.now.declared.heads.now scene.now.declared.index.now scene.now.imports.now }
    ensures { (has_block : Bool) → let H = scene.now.declared.heads.now in let K = known_in scene.now.known.now in IfOk result (λ it. it ≡ least found (method_broken H K method class (Headed head.now has_block))) }
{
    let is_static = says(ModifierWord::Static, head.modifiers.slice());
    let reading = method_reading(method, class, is_static);
    let file = class_file(scene.declared.heads, class);
    let found = head_types_broken(alloc, scene, reading, file, head, found)?;
    Ok(found)
}

/// The first rule that the head of a method breaks.
#[tactic(auto, using(crate::proofs::Counting::counting))]
pub fn method_site_broken(
    alloc: Global,
    scene: &Scene,
    number: u64,
    site: &MethodSite,
    found: Option<Refusal>,
) -> Result<Option<Refusal>, WantOfMemory>
    requires { IsScene scene.now.declared.heads.now scene.now.declared.index.now scene.now.imports.now }
    ensures { let H = scene.now.declared.heads.now in let K = known_in scene.now.known.now in IfOk result (λ it. it ≡ least found (method_site_breaks H K number site.now)) }
{
    match site.form {
        MethodForm::Headed { head, .. } => {
            let file = class_file(scene.declared.heads, site.class);
            let found = formals_repeated(alloc, file, head.formals.slice(), found)?;
            let found = head_modifiers_broken(scene.declared.heads, site.class, head, found);
            let found = head_broken(alloc, scene, number, site.class, head, found)?;
            Ok(found)
        }
        MethodForm::ImpliedConstructor => Ok(found),
        MethodForm::StaticInitialiser => Ok(found),
    }
}

/// Whether a field is static, as those of interfaces are (JLS 9.3).
fn is_static_field(heads: &Heads, site: &FieldSite) -> bool
    ensures { result ≡ is_static_field heads.now site.now }
{
    is_interface(heads, site.class) || says(ModifierWord::Static, site.vars.modifiers.slice())
}

/// The first rule that a type breaks in the body of a class.
fn body_type_broken(
    alloc: Global,
    scene: &Scene,
    class: u64,
    is_static: bool,
    ty: &TypeTree,
    found: Option<Refusal>,
) -> Result<Option<Refusal>, WantOfMemory>
    requires { IsScene scene.now.declared.heads.now scene.now.declared.index.now scene.now.imports.now }
    ensures { let H = scene.now.declared.heads.now in let K = known_in scene.now.known.now in IfOk result (λ it. it ≡ least found (in_file (class_file H class) (wrote_type H K (body_reading H K class is_static) ty.now).broken)) }
{
    let file = class_file(scene.declared.heads, class);
    let reading = body_reading(class, is_static);
    let found = type_broken(alloc, scene, reading, file, ty, found)?;
    Ok(found)
}

fn field_modifiers_broken(
    heads: &Heads,
    site: &FieldSite,
    found: Option<Refusal>,
) -> Option<Refusal>
    ensures { result ≡ least found (field_modifier_breaks heads.now site.now) }
{
    let file = class_file(heads, site.class);
    let fit = field_fits(is_interface(heads, site.class), site.vars.modifiers.slice());
    unless_fit(fit, file, first_offset_of_locals(site.vars), found)
}

/// The first rule that a field breaks by its modifiers and its type.
#[tactic(auto, using(crate::proofs::Counting::counting))]
pub fn field_site_broken(
    alloc: Global,
    scene: &Scene,
    site: &FieldSite,
    found: Option<Refusal>,
) -> Result<Option<Refusal>, WantOfMemory>
    requires { IsScene scene.now.declared.heads.now scene.now.declared.index.now scene.now.imports.now }
    ensures { (k : ℕ) → let H = scene.now.declared.heads.now in let K = known_in scene.now.known.now in IfOk result (λ it. it ≡ least found (field_site_breaks H K k site.now)) }
{
    let found = field_modifiers_broken(scene.declared.heads, site, found);
    let is_static = is_static_field(scene.declared.heads, site);
    let ty = &site.vars.ty;
    let found = body_type_broken(alloc, scene, site.class, is_static, ty, found)?;
    Ok(found)
}

/// The first rule that a part of a body breaks.
#[tactic(auto, using(crate::proofs::Counting::counting))]
pub fn use_site_broken(
    alloc: Global,
    scene: &Scene,
    site: &UseSite,
    found: Option<Refusal>,
) -> Result<Option<Refusal>, WantOfMemory>
    requires { IsScene scene.now.declared.heads.now scene.now.declared.index.now scene.now.imports.now }
    ensures { (k : ℕ) → let H = scene.now.declared.heads.now in let K = known_in scene.now.known.now in IfOk result (λ it. it ≡ least found (use_site_breaks H K k site.now)) }
{
    let heads = scene.declared.heads;
    let file = class_file(heads, site.class);
    let is_static = site.is_static || is_interface(heads, site.class);
    let reading = reading_in_scope(heads, site.scope, is_static);
    match site.part {
        BodyPart::Type(ty) => type_broken(alloc, scene, reading, file, ty, found),
        BodyPart::ClassType(class) => class_broken(alloc, scene, reading, file, class, found),
        BodyPart::Diamond(class) => class_broken(alloc, scene, reading, file, class, found),
        BodyPart::Element(base) => base_broken(alloc, scene, reading, file, base, found),
        BodyPart::Variable { modifiers, at } => {
            Ok(unless_fit(local_fits(modifiers), file, at, found))
        }
    }
}
