//! The first broken rule of the names in a written type.
ghost use Rattle.std.specs.Prelude.{◌≡◌, ◌∷◌, IfOk};
ghost use Rattle.jc_types.specs.Breaks.{least};
ghost use Rattle.jc_declares.specs.Heads.{owner_of, path_of_class};
ghost use Rattle.jc_declares.specs.Looking.{is_own};
ghost use Rattle.jc_declares.specs.Writing.{is_empty, last_args, name_broken, arg_broken, wrote_type, wrote_base, wrote_class, wrote_arg};
ghost use Rattle.jc_tree.specs.declared.types.ClassTree.{out-ClassTree};
ghost use Rattle.jc_written.specs.Trees.{last_in, early_in, args_rules, parts_rules, name_rules, sight_rules};
ghost use Rattle.jc_declares.specs.Breaks.{in_file};
ghost use Rattle.jc_declares.specs.HeadBreaks.{broken_at};
ghost use Rattle.jc_looking.specs.Members.{known_in};
ghost use Rattle.jc_looking.specs.Scenes.{IsScene};
ghost use Rattle.jc_written.specs.At.{reading_at};

use crate::reading::Reading;
use jc_declares::{Heads, Path};
use jc_heads::path_of_class;
use jc_looking::{Scene, Sight, may_be_named, meaning};
use jc_rules::{Place, Refusal, Rule, WantOfMemory};
use jc_tree::{BaseTree, ClassTree, TypeArg, TypePart, TypeTree};
use jc_types::{Owner, sooner};
use std::alloc::Global;

/// What was found before, or a rule that is broken here, whichever comes first.
pub fn or_break(found: Option<Refusal>, rule: Rule, place: Place) -> Option<Refusal>
    ensures { result ≡ least found (broken_at rule place.file place.at) }
{
    let next = Refusal {
        rule,
        place,
        have: 0,
    };
    sooner(found, Some(next))
}

/// Whether a type variable may be named where the variables of class `own` may be (JLS 8.1.3).
pub fn is_own(heads: &Heads, variable: u64, own: Option<u64>) -> bool
    ensures { result ≡ is_own (owner_of heads.now variable) own }
{
    let Some(head) = heads.variables.get(variable as usize) else {
        return false;
    };
    match head.owner {
        Owner::Method(_) => true,
        Owner::Class(class) => match own {
            Some(own) => own == class.0,
            None => false,
        },
    }
}

/// The arguments of the last part of a class type.
fn last_args(tree: &ClassTree) -> &[TypeArg]
    ensures { result.now ≡ last_in (out-ClassTree tree.now).first (out-ClassTree tree.now).more }
{
    let mut last = &tree.first;
    for part in tree.more.slice() {
        last = part;
    }
    last.args.slice()
}

/// Whether the last part of a class type has no arguments.
fn is_without_args(tree: &ClassTree) -> bool
    ensures { result ≡ is_empty (last_in (out-ClassTree tree.now).first (out-ClassTree tree.now).more) }
{
    match last_args(tree).first() {
        Some(_) => false,
        None => true,
    }
}

/// The broken rule of a name by what it means, where it has arguments or none.
fn sight_broken(
    heads: &Heads,
    own: Option<u64>,
    sight: Sight,
    without_args: bool,
    spot: Place,
    found: Option<Refusal>,
) -> Option<Refusal>
    ensures { result ≡ least found (in_file spot.file (sight_rules heads.now own sight without_args spot.at)) }
{
    match sight {
        Sight::Asks => found,
        Sight::Nothing => or_break(found, Rule::known(302), spot),
        Sight::Class(_) => found,
        Sight::Variable(variable) => {
            if !is_own(heads, variable, own) {
                return or_break(found, Rule::known(311), spot);
            }
            if without_args {
                found
            } else {
                or_break(found, Rule::known(302), spot)
            }
        }
        Sight::Several => or_break(found, Rule::known(303), spot),
    }
}

/// The broken rule of a name that stands at a place.
#[tactic(auto, using(crate::proofs::Sighted::sight_told))]
fn name_broken(
    alloc: Global,
    scene: &Scene,
    reading: Reading,
    path: &Path,
    without_args: bool,
    spot: Place,
    found: Option<Refusal>,
) -> Result<Option<Refusal>, WantOfMemory>
    requires { IsScene scene.now.declared.heads.now scene.now.declared.index.now scene.now.imports.now }
    ensures { let H = scene.now.declared.heads.now in let K = known_in scene.now.known.now in IfOk result (λ it. it ≡ least found (in_file spot.file (name_rules H K (reading_at H K reading) path.now without_args spot.at))) }
{
    if !may_be_named(alloc, scene, reading.standing, path)? {
        return Ok(or_break(found, Rule::known(310), spot));
    }
    let sight = meaning(alloc, scene, reading.standing, path)?;
    Ok(sight_broken(
        scene.declared.heads,
        reading.own,
        sight,
        without_args,
        spot,
        found,
    ))
}

/// The rule that arguments before the last part of a class type break.
#[tactic(auto, using(crate::proofs::Counting::counting))]
fn early_broken(tree: &ClassTree, file: u64, found: Option<Refusal>) -> Option<Refusal>
    ensures { result ≡ least found (in_file file (early_in (out-ClassTree tree.now).first (out-ClassTree tree.now).more)) }
{
    let mut found = found;
    let mut part = &tree.first;
    for next in tree.more.slice() {
        if !part.args.slice().is_empty() {
            let at = part.name.at;
            found = or_break(found, Rule::known(302), Place { file, at });
        }
        part = next;
    }
    found
}

/// The first broken rule of the names in a class type.
#[cycle(breaks)]
pub fn class_broken(
    alloc: Global,
    scene: &Scene,
    reading: Reading,
    file: u64,
    tree: &ClassTree,
    found: Option<Refusal>,
) -> Result<Option<Refusal>, WantOfMemory>
    requires { IsScene scene.now.declared.heads.now scene.now.declared.index.now scene.now.imports.now }
    ensures { let H = scene.now.declared.heads.now in let K = known_in scene.now.known.now in IfOk result (λ it. it ≡ least found (in_file file (wrote_class H K (reading_at H K reading) tree.now).broken)) }
{
    let path = path_of_class(alloc, tree)?;
    let at = tree.first.name.at;
    let without_args = is_without_args(tree);
    let place = Place { file, at };
    let found = name_broken(alloc, scene, reading, &path, without_args, place, found)?;
    let found = early_broken(tree, file, found);
    let found = args_broken(alloc, scene, reading, file, tree.first.args.slice(), found)?;
    let found = parts_broken(alloc, scene, reading, file, tree.more.slice(), found)?;
    Ok(found)
}

#[cycle(breaks)]
fn parts_broken(
    alloc: Global,
    scene: &Scene,
    reading: Reading,
    file: u64,
    parts: &[TypePart],
    found: Option<Refusal>,
) -> Result<Option<Refusal>, WantOfMemory>
    requires { IsScene scene.now.declared.heads.now scene.now.declared.index.now scene.now.imports.now }
    ensures { let H = scene.now.declared.heads.now in let K = known_in scene.now.known.now in IfOk result (λ it. it ≡ least found (in_file file (parts_rules H K (reading_at H K reading) parts.now))) }
{
    let mut found = found;
    for part in parts {
        found = args_broken(alloc, scene, reading, file, part.args.slice(), found)?;
    }
    Ok(found)
}

#[cycle(breaks)]
fn args_broken(
    alloc: Global,
    scene: &Scene,
    reading: Reading,
    file: u64,
    args: &[TypeArg],
    found: Option<Refusal>,
) -> Result<Option<Refusal>, WantOfMemory>
    requires { IsScene scene.now.declared.heads.now scene.now.declared.index.now scene.now.imports.now }
    ensures { let H = scene.now.declared.heads.now in let K = known_in scene.now.known.now in IfOk result (λ it. it ≡ least found (in_file file (args_rules H K (reading_at H K reading) args.now))) }
{
    let mut found = found;
    for arg in args {
        found = arg_broken(alloc, scene, reading, file, arg, found)?;
    }
    Ok(found)
}

#[cycle(breaks)]
#[tactic(auto, using(crate::proofs::WrotesByParts::parts))]
fn arg_broken(
    alloc: Global,
    scene: &Scene,
    reading: Reading,
    file: u64,
    arg: &TypeArg,
    found: Option<Refusal>,
) -> Result<Option<Refusal>, WantOfMemory>
    requires { IsScene scene.now.declared.heads.now scene.now.declared.index.now scene.now.imports.now }
    ensures { let H = scene.now.declared.heads.now in let K = known_in scene.now.known.now in IfOk result (λ it. it ≡ least found (in_file file (wrote_arg H K (reading_at H K reading) arg.now).broken)) }
{
    match arg {
        TypeArg::Exact(ty) => type_broken(alloc, scene, reading, file, ty, found),
        TypeArg::Any { .. } => Ok(found),
        TypeArg::Extends { bound, .. } => type_broken(alloc, scene, reading, file, bound, found),
        TypeArg::Super { bound, .. } => type_broken(alloc, scene, reading, file, bound, found),
    }
}

/// The first broken rule of the names in what an array is over.
#[cycle(breaks)]
#[tactic(auto, using(crate::proofs::WrotesByParts::parts))]
pub fn base_broken(
    alloc: Global,
    scene: &Scene,
    reading: Reading,
    file: u64,
    tree: &BaseTree,
    found: Option<Refusal>,
) -> Result<Option<Refusal>, WantOfMemory>
    requires { IsScene scene.now.declared.heads.now scene.now.declared.index.now scene.now.imports.now }
    ensures { let H = scene.now.declared.heads.now in let K = known_in scene.now.known.now in IfOk result (λ it. it ≡ least found (in_file file (wrote_base H K (reading_at H K reading) tree.now).broken)) }
{
    match tree {
        BaseTree::Primitive { .. } => Ok(found),
        BaseTree::Class(class) => class_broken(alloc, scene, reading, file, class, found),
    }
}

/// The first broken rule of the names in a written type, or what was found before, whichever comes first.
#[cycle(breaks)]
#[tactic(auto, using(crate::proofs::WrotesByParts::parts))]
pub fn type_broken(
    alloc: Global,
    scene: &Scene,
    reading: Reading,
    file: u64,
    tree: &TypeTree,
    found: Option<Refusal>,
) -> Result<Option<Refusal>, WantOfMemory>
    requires { IsScene scene.now.declared.heads.now scene.now.declared.index.now scene.now.imports.now }
    ensures { let H = scene.now.declared.heads.now in let K = known_in scene.now.known.now in IfOk result (λ it. it ≡ least found (in_file file (wrote_type H K (reading_at H K reading) tree.now).broken)) }
{
    base_broken(alloc, scene, reading, file, &tree.base, found)
}
