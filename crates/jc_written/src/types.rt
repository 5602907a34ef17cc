//! The type that is written, with the places of the class types inside it.
ghost use Rattle.std.specs.Prelude.{◌≡◌, ◌++◌, ◌+◌, map, IfOk, OnOk};
ghost use Rattle.jc_tree.specs.declared.types.ClassTree.{out-ClassTree};
ghost use Rattle.jc_tree.specs.Offsets.{first_offset_of_base, first_offset_of_class, first_offset_of_type};
ghost use Rattle.jc_declares.specs.Writing.{primitive_of, class_type, with_dims, wrote_type, wrote_base, wrote_class, wrote_arg};
ghost use Rattle.jc_declares.specs.Making.{place_at, written_at, written_class};
ghost use Rattle.jc_name_index.specs.Index.{IsIndex};
ghost use Rattle.jc_looking.specs.Members.{known_in};
ghost use Rattle.jc_looking.specs.Scenes.{IsScene};
ghost use Rattle.jc_written.specs.At.{reading_at};
ghost use Rattle.jc_written.specs.Trees.{last_in, args_meant, args_placed, sight_type};

use crate::reading::Reading;
use jc_heads::path_of_class;
use jc_looking::{Scene, Sight, meaning};
use jc_name_index::Indexed;
use jc_rules::{Items, Place, WantOfMemory};
use jc_tree::{
    BaseTree, ClassTree, PrimitiveWord, TypeArg, TypeTree, first_offset_of_class,
    first_offset_of_type,
};
use jc_types::{Arg, ClassId, Primitive, Ty, TypePlaces, VarId, Written, array_over};
use std::alloc::Global;

fn primitive_of(word: PrimitiveWord) -> Primitive
    ensures { result ≡ primitive_of word }
{
    match word {
        PrimitiveWord::Boolean => Primitive::Boolean,
        PrimitiveWord::Byte => Primitive::Byte,
        PrimitiveWord::Short => Primitive::Short,
        PrimitiveWord::Char => Primitive::Char,
        PrimitiveWord::Int => Primitive::Int,
        PrimitiveWord::Long => Primitive::Long,
    }
}

/// A class with its arguments. A generic class without arguments is raw (JLS 4.8).
fn class_of(declared: &Indexed, class: u64, args: Items<Arg>) -> Ty
    requires { IsIndex declared.now.heads.now declared.now.index.now }
    ensures { result ≡ class_type declared.now.heads.now class args }
{
    let id = ClassId(class);
    if args.is_empty() && declared.is_generic(class) {
        Ty::Raw { id }
    } else {
        Ty::Class { id, args }
    }
}

/// The type that the meaning of a name is.
fn sight_type(alloc: Global, declared: &Indexed, sight: Sight, args: Items<Arg>) -> Ty
    requires { IsIndex declared.now.heads.now declared.now.index.now }
    ensures { result ≡ sight_type declared.now.heads.now sight args }
{
    match sight {
        Sight::Class(class) => class_of(declared, class, args),
        Sight::Variable(variable) => Ty::Variable(VarId(variable)),
        _ => Ty::Class {
            id: ClassId(0),
            args: Items::new(alloc),
        },
    }
}

/// So many pairs of brackets behind a type (JLS 10.1).
fn with_dims(alloc: Global, dims: u64, ty: Ty) -> Result<Ty, WantOfMemory>
    ensures { IfOk result (λ it. it ≡ with_dims dims ty) }
{
    if dims == 0 {
        return Ok(ty);
    }
    array_over(alloc, ty, dims - 1)
}

#[cycle(types)]
#[tactic(auto, using(crate::proofs::Placed::placing))]
fn push_args(
    alloc: Global,
    scene: &Scene,
    reading: Reading,
    file: u64,
    args: &[TypeArg],
    list: &mut Items<Arg>,
    places: &mut Items<Place>,
) -> Result<(), WantOfMemory>
    requires { IsScene scene.now.declared.heads.now scene.now.declared.index.now scene.now.imports.now }
    ensures list { let H = scene.now.declared.heads.now in let K = known_in scene.now.known.now in OnOk result (list.new ≡ list.old ++ args_meant H K (reading_at H K reading) args.now) }
    ensures places { let H = scene.now.declared.heads.now in let K = known_in scene.now.known.now in OnOk result (places.new ≡ places.old ++ map (place_at file) (args_placed H K (reading_at H K reading) args.now)) }
{
    for arg in args {
        let one = type_arg(alloc, scene, reading, file, arg, places)?;
        list.push(one)?;
    }
    Ok(())
}

#[cycle(types)]
#[tactic(auto, using(crate::proofs::WrotesByParts::parts, crate::proofs::Placed::placing))]
fn type_arg(
    alloc: Global,
    scene: &Scene,
    reading: Reading,
    file: u64,
    arg: &TypeArg,
    places: &mut Items<Place>,
) -> Result<Arg, WantOfMemory>
    requires { IsScene scene.now.declared.heads.now scene.now.declared.index.now scene.now.imports.now }
    ensures arg { let H = scene.now.declared.heads.now in let K = known_in scene.now.known.now in IfOk result (λ it. it ≡ (wrote_arg H K (reading_at H K reading) arg.now).arg) }
    ensures places { let H = scene.now.declared.heads.now in let K = known_in scene.now.known.now in OnOk result (places.new ≡ places.old ++ map (place_at file) (wrote_arg H K (reading_at H K reading) arg.now).places) }
{
    match arg {
        TypeArg::Exact(ty) => Ok(Arg::Exact(type_of(alloc, scene, reading, file, ty, places)?)),
        TypeArg::Any { .. } => Ok(Arg::Any),
        TypeArg::Extends { bound, .. } => Ok(Arg::Extends(type_of(
            alloc, scene, reading, file, bound, places,
        )?)),
        TypeArg::Super { bound, .. } => Ok(Arg::Super(type_of(
            alloc, scene, reading, file, bound, places,
        )?)),
    }
}

/// The arguments of the last part of a class type.
#[cycle(types)]
#[tactic(auto, using(crate::proofs::Turns::last_at))]
fn push_last(
    alloc: Global,
    scene: &Scene,
    reading: Reading,
    file: u64,
    tree: &ClassTree,
    list: &mut Items<Arg>,
    places: &mut Items<Place>,
) -> Result<(), WantOfMemory>
    requires { IsScene scene.now.declared.heads.now scene.now.declared.index.now scene.now.imports.now }
    ensures list { let H = scene.now.declared.heads.now in let K = known_in scene.now.known.now in OnOk result (list.new ≡ list.old ++ args_meant H K (reading_at H K reading) (last_in (out-ClassTree tree.now).first (out-ClassTree tree.now).more)) }
    ensures places { let H = scene.now.declared.heads.now in let K = known_in scene.now.known.now in OnOk result (places.new ≡ places.old ++ map (place_at file) (args_placed H K (reading_at H K reading) (last_in (out-ClassTree tree.now).first (out-ClassTree tree.now).more))) }
{
    let more = tree.more.slice();
    if more.is_empty() {
        let args = tree.first.args.slice();
        push_args(alloc, scene, reading, file, args, list, places)?;
        return Ok(());
    }
    let last = &more[more.len() - 1];
    push_args(alloc, scene, reading, file, last.args.slice(), list, places)?;
    Ok(())
}

/// A class type, whose places go behind others.
#[cycle(types)]
#[tactic(auto, using(crate::proofs::Told::class_told, crate::proofs::Placed::placing))]
fn class_type(
    alloc: Global,
    scene: &Scene,
    reading: Reading,
    file: u64,
    tree: &ClassTree,
    places: &mut Items<Place>,
) -> Result<Ty, WantOfMemory>
    requires { IsScene scene.now.declared.heads.now scene.now.declared.index.now scene.now.imports.now }
    ensures ty { let H = scene.now.declared.heads.now in let K = known_in scene.now.known.now in IfOk result (λ it. it ≡ (wrote_class H K (reading_at H K reading) tree.now).ty) }
    ensures places { let H = scene.now.declared.heads.now in let K = known_in scene.now.known.now in OnOk result (places.new ≡ places.old ++ map (place_at file) (wrote_class H K (reading_at H K reading) tree.now).places) }
{
    let path = path_of_class(alloc, tree)?;
    let sight = meaning(alloc, scene, reading.standing, &path)?;
    if let Sight::Variable(variable) = sight {
        return Ok(Ty::Variable(VarId(variable)));
    }
    let at = tree.first.name.at;
    places.push(Place { file, at })?;
    let mut args = Items::new(alloc);
    push_last(alloc, scene, reading, file, tree, &mut args, places)?;
    Ok(sight_type(alloc, &scene.declared, sight, args))
}

#[cycle(types)]
#[tactic(auto, using(crate::proofs::WrotesByParts::parts, crate::proofs::Placed::placing))]
fn base_type(
    alloc: Global,
    scene: &Scene,
    reading: Reading,
    file: u64,
    tree: &BaseTree,
    places: &mut Items<Place>,
) -> Result<Ty, WantOfMemory>
    requires { IsScene scene.now.declared.heads.now scene.now.declared.index.now scene.now.imports.now }
    ensures ty { let H = scene.now.declared.heads.now in let K = known_in scene.now.known.now in IfOk result (λ it. it ≡ (wrote_base H K (reading_at H K reading) tree.now).ty) }
    ensures places { let H = scene.now.declared.heads.now in let K = known_in scene.now.known.now in OnOk result (places.new ≡ places.old ++ map (place_at file) (wrote_base H K (reading_at H K reading) tree.now).places) }
{
    match tree {
        BaseTree::Primitive { word, .. } => Ok(Ty::Prim(primitive_of(*word))),
        BaseTree::Class(class) => class_type(alloc, scene, reading, file, class, places),
    }
}

#[cycle(types)]
#[tactic(auto, using(crate::proofs::WrotesByParts::parts, crate::proofs::Placed::placing))]
fn type_of(
    alloc: Global,
    scene: &Scene,
    reading: Reading,
    file: u64,
    tree: &TypeTree,
    places: &mut Items<Place>,
) -> Result<Ty, WantOfMemory>
    requires { IsScene scene.now.declared.heads.now scene.now.declared.index.now scene.now.imports.now }
    ensures ty { let H = scene.now.declared.heads.now in let K = known_in scene.now.known.now in IfOk result (λ it. it ≡ (wrote_type H K (reading_at H K reading) tree.now).ty) }
    ensures places { let H = scene.now.declared.heads.now in let K = known_in scene.now.known.now in OnOk result (places.new ≡ places.old ++ map (place_at file) (wrote_type H K (reading_at H K reading) tree.now).places) }
{
    let base = base_type(alloc, scene, reading, file, &tree.base, places)?;
    with_dims(alloc, u64::from(tree.dims), base)
}

/// A type that begins at an offset, with more dimensions than are written with it.
fn written_at(
    alloc: Global,
    first: Place,
    dims: u64,
    ty: Ty,
    classes: Items<Place>,
) -> Result<Written, WantOfMemory>
    ensures { IfOk result (λ it. it ≡ record { ty = with_dims dims ty; places = record { first = first; classes = classes } }) }
{
    let ty = with_dims(alloc, dims, ty)?;
    Ok(Written {
        ty,
        places: TypePlaces { first, classes },
    })
}

/// A written type, with more dimensions behind it.
pub fn written_type(
    alloc: Global,
    scene: &Scene,
    reading: Reading,
    file: u64,
    tree: &TypeTree,
    dims: u64,
) -> Result<Written, WantOfMemory>
    requires { IsScene scene.now.declared.heads.now scene.now.declared.index.now scene.now.imports.now }
    ensures { let H = scene.now.declared.heads.now in let K = known_in scene.now.known.now in IfOk result (λ it. it ≡ written_at file (first_offset_of_type tree.now) dims (wrote_type H K (reading_at H K reading) tree.now)) }
{
    let at = first_offset_of_type(tree);
    let mut classes = Items::new(alloc);
    let ty = type_of(alloc, scene, reading, file, tree, &mut classes)?;
    written_at(alloc, Place { file, at }, dims, ty, classes)
}

/// A written class type.
pub fn written_class(
    alloc: Global,
    scene: &Scene,
    reading: Reading,
    file: u64,
    tree: &ClassTree,
) -> Result<Written, WantOfMemory>
    requires { IsScene scene.now.declared.heads.now scene.now.declared.index.now scene.now.imports.now }
    ensures { let H = scene.now.declared.heads.now in let K = known_in scene.now.known.now in IfOk result (λ it. it ≡ written_class H K file (reading_at H K reading) tree.now) }
{
    let at = first_offset_of_class(tree);
    let mut classes = Items::new(alloc);
    let ty = class_type(alloc, scene, reading, file, tree, &mut classes)?;
    written_at(alloc, Place { file, at }, 0, ty, classes)
}

#[tactic(auto, using(crate::proofs::Placed::begun))]
fn base_at(tree: &BaseTree) -> u32
    ensures { result ≡ first_offset_of_base tree.now }
{
    match tree {
        BaseTree::Primitive { at, .. } => *at,
        BaseTree::Class(class) => first_offset_of_class(class),
    }
}

/// What an array is over, as it is written.
pub fn written_base(
    alloc: Global,
    scene: &Scene,
    reading: Reading,
    file: u64,
    tree: &BaseTree,
) -> Result<Written, WantOfMemory>
    requires { IsScene scene.now.declared.heads.now scene.now.declared.index.now scene.now.imports.now }
    ensures { let H = scene.now.declared.heads.now in let K = known_in scene.now.known.now in IfOk result (λ it. it ≡ written_at file (first_offset_of_base tree.now) 0 (wrote_base H K (reading_at H K reading) tree.now)) }
{
    let at = base_at(tree);
    let mut classes = Items::new(alloc);
    let ty = base_type(alloc, scene, reading, file, tree, &mut classes)?;
    written_at(alloc, Place { file, at }, 0, ty, classes)
}
