//! Classes and interfaces (JLS 8.1, 9.1).
ghost use Rattle.std.specs.Prelude.{◌≡◌, ◌==◌, ℕ, ◌++◌, ◌∷◌, [], map, IfOk, OnOk};
ghost use Rattle.jc_types.specs.declared.ids.FieldId.{FieldId};
ghost use Rattle.jc_types.specs.declared.ids.MethodId.{MethodId};
ghost use Rattle.jc_tree.specs.Offsets.{first_offset_of_head};
ghost use Rattle.jc_declares.specs.Heads.{superclass_trees, binary_of};
ghost use Rattle.jc_declares.specs.Making.{types, class_id, outer_id, or_object, written_classes, class_decl, numbered};
ghost use Rattle.jc_declares.specs.Readings.{head_reading};
ghost use Rattle.jc_declared.specs.Types.{with_types};
ghost use Rattle.jc_table.specs.Filling.{superclass_read, supers_read, class_in};
ghost use Rattle.jc_groups.specs.Members.{AreMembers};
ghost use Rattle.jc_looking.specs.Members.{known_in};
ghost use Rattle.jc_looking.specs.Scenes.{IsScene};
ghost use Rattle.jc_written.specs.At.{reading_at};

use jc_declared::{
    no_types, push_classes as push_written_classes, push_object, push_written, variable_ids,
};
use jc_declares::Heads;
use jc_groups::Members;
use jc_heads::{
    head_at, interface_trees, is_interface_head, is_top, kind_of_head, modifiers_in_head,
    name_in_head,
};
use jc_looking::Scene;
use jc_modifiers::class_modifiers;
use jc_rules::{Items, Place, Text, WantOfMemory};
use jc_scopes::{binary_of, package_of};
use jc_sites::ClassSite;
use jc_tree::{DeclarationHead, copy_text};
use jc_types::{ClassDecl, ClassId, FieldId, MethodId, ScopeId, WrittenTypes};
use jc_written::{Reading, head_reading, written_class};
use std::alloc::Global;

fn class_ids(alloc: Global, numbers: &[u64]) -> Result<Items<ClassId>, WantOfMemory>
    ensures { IfOk result (λ it. it ≡ map class_id numbers.now) }
{
    let mut ids = Items::new(alloc);
    for number in numbers {
        ids.push(ClassId(*number))?;
    }
    Ok(ids)
}

fn method_ids(alloc: Global, numbers: &[u64]) -> Result<Items<MethodId>, WantOfMemory>
    ensures { IfOk result (λ it. it ≡ map (λ n. let id : MethodId = record { 0 = n } in id) numbers.now) }
{
    let mut ids = Items::new(alloc);
    for number in numbers {
        ids.push(MethodId(*number))?;
    }
    Ok(ids)
}

fn field_ids(alloc: Global, numbers: &[u64]) -> Result<Items<FieldId>, WantOfMemory>
    ensures { IfOk result (λ it. it ≡ map (λ n. let id : FieldId = record { 0 = n } in id) numbers.now) }
{
    let mut ids = Items::new(alloc);
    for number in numbers {
        ids.push(FieldId(*number))?;
    }
    Ok(ids)
}

/// The class of which a type is a member.
fn outer_id(round: &[u64]) -> Option<ClassId>
    ensures { result ≡ outer_id round.now }
{
    match round.first() {
        Some(class) => Some(ClassId(*class)),
        None => None,
    }
}

/// Adds the superclass, which is Object where none is written and for an interface (JLS 8.1.4, 9.1.3).
fn push_superclass(
    alloc: Global,
    scene: &Scene,
    reading: Reading,
    file: u64,
    head: &DeclarationHead,
    list: &mut WrittenTypes,
) -> Result<(), WantOfMemory>
    requires { IsScene scene.now.declared.heads.now scene.now.declared.index.now scene.now.imports.now }
    ensures { let H = scene.now.declared.heads.now in let K = known_in scene.now.known.now in OnOk result (list.new ≡ with_types list.old (or_object file (first_offset_of_head head.now) (written_classes H K file (reading_at H K reading) (superclass_trees head.now)))) }
{
    let place = Place {
        file,
        at: head_at(head),
    };
    match head {
        DeclarationHead::Class {
            extends: Some(tree),
            ..
        } => push_written(list, written_class(alloc, scene, reading, file, tree)?),
        DeclarationHead::Class { extends: None, .. } => push_object(alloc, list, place),
        DeclarationHead::Interface { .. } => push_object(alloc, list, place),
        DeclarationHead::Annotation { .. } => push_object(alloc, list, place),
    }
}

/// The superclass of a class of a number, read in one way. Object, the first class, has none.
#[tactic(auto, using(crate::proofs::Supers::joining))]
fn superclass(
    alloc: Global,
    scene: &Scene,
    reading: Reading,
    number: u64,
    file: u64,
    head: &DeclarationHead,
) -> Result<WrittenTypes, WantOfMemory>
    requires { IsScene scene.now.declared.heads.now scene.now.declared.index.now scene.now.imports.now }
    ensures { let H = scene.now.declared.heads.now in let K = known_in scene.now.known.now in IfOk result (λ it. it ≡ types (superclass_read H K (reading_at H K reading) number file head.now)) }
{
    let mut list = no_types(alloc);
    if number == 0 {
        return Ok(list);
    }
    push_superclass(alloc, scene, reading, file, head, &mut list)?;
    Ok(list)
}

/// The supertypes of a class of a number, the superclass first, read in one way.
#[tactic(auto, using(crate::proofs::Supers::joining))]
fn supers_read(
    alloc: Global,
    scene: &Scene,
    reading: Reading,
    number: u64,
    file: u64,
    head: &DeclarationHead,
) -> Result<WrittenTypes, WantOfMemory>
    requires { IsScene scene.now.declared.heads.now scene.now.declared.index.now scene.now.imports.now }
    ensures { let H = scene.now.declared.heads.now in let K = known_in scene.now.known.now in IfOk result (λ it. it ≡ types (supers_read H K (reading_at H K reading) number file head.now)) }
{
    let mut list = superclass(alloc, scene, reading, number, file, head)?;
    let trees = interface_trees(head);
    push_written_classes(alloc, scene, reading, file, trees, &mut list)?;
    Ok(list)
}

/// The supertypes of a class of a number, as its head writes them.
fn super_types(
    alloc: Global,
    scene: &Scene,
    number: u64,
    file: u64,
    head: &DeclarationHead,
) -> Result<WrittenTypes, WantOfMemory>
    requires { IsScene scene.now.declared.heads.now scene.now.declared.index.now scene.now.imports.now }
    ensures { let H = scene.now.declared.heads.now in let K = known_in scene.now.known.now in IfOk result (λ it. it ≡ types (supers_read H K (head_reading H K number) number file head.now)) }
{
    let reading = head_reading(number);
    let supers = supers_read(alloc, scene, reading, number, file, head)?;
    Ok(supers)
}

fn text(alloc: Global, text: &str) -> Result<Text, WantOfMemory>
    ensures { IfOk result (λ it. it ≡ text.now) }
{
    Text::copied(alloc, text)
}

/// The binary name of a class with points.
fn binary_text(alloc: Global, heads: &Heads, class: u64) -> Result<Text, WantOfMemory>
    ensures { IfOk result (λ it. it ≡ binary_of heads.now class) }
{
    let name = binary_of(alloc, heads, class)?;
    Text::copied(alloc, name.as_str())
}

/// Where a class of a number is declared: its file, the scope of its body, and whether it is a member of an interface.
#[derive(Clone, Copy)]
struct ClassAt {
    number: u64,
    file: u64,
    scope: u64,
    of_interface: bool,
}

/// A class or interface with the classes round it.
fn class_at(
    alloc: Global,
    scene: &Scene,
    members: &Members,
    at: ClassAt,
    round: &[u64],
    head: &DeclarationHead,
) -> Result<ClassDecl, WantOfMemory>
    requires scene { IsScene scene.now.declared.heads.now scene.now.declared.index.now scene.now.imports.now }
    requires members { AreMembers scene.now.declared.heads.now members.now }
    ensures { let H = scene.now.declared.heads.now in let K = known_in scene.now.known.now in IfOk result (λ it. it ≡ class_in H K at.number at.file at.scope at.of_interface round.now head.now) }
{
    let heads = scene.declared.heads;
    let number = at.number;
    let is_interface = is_interface_head(head);
    let modifiers = modifiers_in_head(head);
    Ok(ClassDecl {
        place: Place {
            file: at.file,
            at: head_at(head),
        },
        name: copy_text(alloc, &name_in_head(head).text)?,
        binary: binary_text(alloc, heads, number)?,
        package: text(alloc, package_of(heads, number))?,
        outer: outer_id(round),
        members: class_ids(alloc, members.types.group(number))?,
        scope: ScopeId(at.scope),
        modifiers: class_modifiers(is_interface, !is_top(round), at.of_interface, modifiers),
        kind: kind_of_head(head),
        vars: variable_ids(alloc, members.class_variables.group(number))?,
        methods: method_ids(alloc, members.methods.group(number))?,
        fields: field_ids(alloc, members.fields.group(number))?,
        supers: super_types(alloc, scene, number, at.file, head)?,
    })
}

/// A class or interface.
fn class_decl(
    alloc: Global,
    scene: &Scene,
    members: &Members,
    number: u64,
    site: &ClassSite,
) -> Result<ClassDecl, WantOfMemory>
    requires scene { IsScene scene.now.declared.heads.now scene.now.declared.index.now scene.now.imports.now }
    requires members { AreMembers scene.now.declared.heads.now members.now }
    ensures { let H = scene.now.declared.heads.now in let K = known_in scene.now.known.now in IfOk result (λ it. it ≡ class_decl H K number site.now) }
{
    let at = ClassAt {
        number,
        file: site.file,
        scope: site.scope,
        of_interface: site.of_interface,
    };
    let class = class_at(alloc, scene, members, at, site.round.slice(), site.head)?;
    Ok(class)
}

/// Adds a class.
fn push_class(
    alloc: Global,
    list: &mut Items<ClassDecl>,
    scene: &Scene,
    members: &Members,
    number: u64,
    site: &ClassSite,
) -> Result<(), WantOfMemory>
    requires scene { IsScene scene.now.declared.heads.now scene.now.declared.index.now scene.now.imports.now }
    requires members { AreMembers scene.now.declared.heads.now members.now }
    ensures { let H = scene.now.declared.heads.now in let K = known_in scene.now.known.now in OnOk result (list.new ≡ list.old ++ class_decl H K number site.now ∷ []) }
{
    let decl = class_decl(alloc, scene, members, number, site)?;
    list.push(decl)
}

/// Adds all classes of a program.
pub fn push_classes(
    alloc: Global,
    list: &mut Items<ClassDecl>,
    scene: &Scene,
    members: &Members,
    sites: &[ClassSite],
) -> Result<(), WantOfMemory>
    requires scene { IsScene scene.now.declared.heads.now scene.now.declared.index.now scene.now.imports.now }
    requires members { AreMembers scene.now.declared.heads.now members.now }
    ensures { let H = scene.now.declared.heads.now in let K = known_in scene.now.known.now in OnOk result (list.new ≡ list.old ++ numbered (class_decl H K) 0 sites.now) }
{
    for number in 0..sites.len() {
        push_class(alloc, list, scene, members, number as u64, &sites[number])?;
    }
    Ok(())
}
