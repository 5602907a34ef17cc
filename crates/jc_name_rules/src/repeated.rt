//! What stands twice in the head of a type or a method: superinterfaces of one type (JLS 8.1.5, 9.1.3), and formal parameters of one name (JLS 8.4.1, 8.8.1).
ghost use Rattle.std.specs.Prelude.{◌≡◌, [], Some, not, slice_get, IfOk, OnOk};
ghost use Rattle.jc_types.specs.Breaks.{least};
ghost use Rattle.jc_types.specs.Sameness.{same};
ghost use Rattle.jc_declares.specs.HeadBreaks.{broken_at, some_in, unless};
ghost use Rattle.jc_declares.specs.Breaks.{formals_twice, is_repeated, repeated_breaks, sound_type, twice_formal, with_type};
ghost use Rattle.jc_declares.specs.Heads.{interface_trees};
ghost use Rattle.jc_declares.specs.Readings.{head_reading};
ghost use Rattle.jc_declares.specs.Writing.{wrote_class};
ghost use Rattle.jc_looking.specs.Members.{known_in};
ghost use Rattle.jc_looking.specs.Scenes.{IsScene};
ghost use Rattle.jc_name_index.specs.Spaces.{noted_all};
ghost use Rattle.jc_name_rules.specs.Numbers.{as_formal};
ghost use Rattle.jc_written.specs.At.{reading_at};

use crate::classes::is_first;
use jc_heads::interface_trees;
use jc_looking::Scene;
use jc_name_index::Spaces;
use jc_rules::{Items, Place, Refusal, Rule, WantOfMemory};
use jc_tree::{ClassTree, DeclarationHead, Formal, first_offset_of_class};
use jc_types::{Ty, Written, same_type};
use jc_written::{Reading, class_broken, head_reading, or_break, written_class};
use std::alloc::Global;

/// The type that is written, if its names break no rule.
fn sound_type(
    alloc: Global,
    scene: &Scene,
    reading: Reading,
    file: u64,
    tree: &ClassTree,
) -> Result<Option<Ty>, WantOfMemory>
    requires { IsScene scene.now.declared.heads.now scene.now.declared.index.now scene.now.imports.now }
    ensures { let H = scene.now.declared.heads.now in let K = known_in scene.now.known.now in IfOk result (λ it. it ≡ sound_type (wrote_class H K (reading_at H K reading) tree.now)) }
{
    match class_broken(alloc, scene, reading, file, tree, None)? {
        Some(_) => Ok(None),
        None => {
            let Written { ty, places: _ } = written_class(alloc, scene, reading, file, tree)?;
            Ok(Some(ty))
        }
    }
}

fn is_one_of(ty: &Ty, types: &[Ty]) -> bool
    ensures { result ≡ some_in (same ty.now) types.now }
{
    for other in types {
        if same_type(ty, other) {
            return true;
        }
    }
    false
}

fn is_repeated(ty: &Option<Ty>, before: &[Ty]) -> bool
    ensures { result ≡ is_repeated ty.now before.now }
{
    match ty {
        Some(ty) => is_one_of(ty, before),
        None => false,
    }
}

fn push_some(before: &mut Items<Ty>, ty: Option<Ty>) -> Result<(), WantOfMemory>
    ensures { OnOk result (before.new ≡ with_type before.old ty) }
{
    match ty {
        Some(ty) => before.push(ty),
        None => Ok(()),
    }
}

fn if_repeated(repeated: bool, file: u64, at: u32, found: Option<Refusal>) -> Option<Refusal>
    ensures { result ≡ least found (unless (not repeated) (broken_at 305 file at)) }
{
    if repeated {
        return or_break(found, Rule::known(305), Place { file, at });
    }
    found
}

fn interfaces_repeated(
    alloc: Global,
    scene: &Scene,
    reading: Reading,
    file: u64,
    trees: &[ClassTree],
    found: Option<Refusal>,
) -> Result<Option<Refusal>, WantOfMemory>
    requires { IsScene scene.now.declared.heads.now scene.now.declared.index.now scene.now.imports.now }
    ensures { let H = scene.now.declared.heads.now in let K = known_in scene.now.known.now in IfOk result (λ it. it ≡ least found (repeated_breaks H K (reading_at H K reading) file [] trees.now)) }
{
    let mut found = found;
    let mut before = Items::new(alloc);
    for tree in trees {
        let ty = sound_type(alloc, scene, reading, file, tree)?;
        let repeated = is_repeated(&ty, before.slice());
        found = if_repeated(repeated, file, first_offset_of_class(tree), found);
        push_some(&mut before, ty)?;
    }
    Ok(found)
}

/// The first of the superinterfaces of a class of which an earlier one is the same type. Of one alone the type isn't read.
#[tactic(auto, using(crate::proofs::Twice::few_interfaces))]
fn some_repeated(
    alloc: Global,
    scene: &Scene,
    reading: Reading,
    file: u64,
    trees: &[ClassTree],
    found: Option<Refusal>,
) -> Result<Option<Refusal>, WantOfMemory>
    requires { IsScene scene.now.declared.heads.now scene.now.declared.index.now scene.now.imports.now }
    ensures { let H = scene.now.declared.heads.now in let K = known_in scene.now.known.now in IfOk result (λ it. it ≡ least found (repeated_breaks H K (reading_at H K reading) file [] trees.now)) }
{
    if trees.len() < 2 {
        return Ok(found);
    }
    interfaces_repeated(alloc, scene, reading, file, trees, found)
}

/// The first of the superinterfaces of a class of which an earlier one is the same type.
pub fn class_repeated(
    alloc: Global,
    scene: &Scene,
    number: u64,
    file: u64,
    head: &DeclarationHead,
    found: Option<Refusal>,
) -> Result<Option<Refusal>, WantOfMemory>
    requires { IsScene scene.now.declared.heads.now scene.now.declared.index.now scene.now.imports.now }
    ensures { let H = scene.now.declared.heads.now in let K = known_in scene.now.known.now in IfOk result (λ it. it ≡ least found (repeated_breaks H K (head_reading H K number) file [] (interface_trees head.now))) }
{
    let reading = head_reading(number);
    let trees = interface_trees(head);
    let found = some_repeated(alloc, scene, reading, file, trees, found)?;
    Ok(found)
}

/// Formal parameters by their names.
fn formals_noted(alloc: Global, formals: &[Formal]) -> Result<Spaces, WantOfMemory>
    ensures { IfOk result (λ it. it ≡ noted_all as_formal 0 formals.now []) }
{
    let mut noted = Spaces::new(alloc, 0)?;
    for number in 0..formals.len() {
        let formal = &formals[number];
        noted.note(alloc, 0, &formal.name.text, number as u64)?;
    }
    Ok(noted)
}

/// The rule that a formal parameter breaks where an earlier one has its name.
#[tactic(auto, using(crate::proofs::Twice::formal_told))]
fn formal_twice(
    file: u64,
    formals: &[Formal],
    noted: &Spaces,
    number: u64,
    formal: &Formal,
    found: Option<Refusal>,
) -> Option<Refusal>
    requires noted { noted.now ≡ noted_all as_formal 0 formals.now [] }
    requires is { slice_get formals.now number ≡ Some formal.now }
    ensures { result ≡ least found (twice_formal file formals.now number formal.now) }
{
    let _formals = formals;
    if is_first(noted.find(0, formal.name.text.str()), number) {
        return found;
    }
    let place = Place {
        file,
        at: formal.name.at,
    };
    or_break(found, Rule::known(307), place)
}

#[tactic(auto, using(crate::proofs::Counting::counting))]
fn each_twice(
    alloc: Global,
    file: u64,
    formals: &[Formal],
    found: Option<Refusal>,
) -> Result<Option<Refusal>, WantOfMemory>
    ensures { IfOk result (λ it. it ≡ least found (formals_twice file formals.now)) }
{
    let noted = formals_noted(alloc, formals)?;
    let mut found = found;
    for number in 0..formals.len() {
        found = formal_twice(
            file,
            formals,
            &noted,
            number as u64,
            &formals[number],
            found,
        );
    }
    Ok(found)
}

/// The first of the formal parameters of a method of which an earlier one has the name.
#[tactic(auto, using(crate::proofs::Twice::few_formals))]
pub fn formals_repeated(
    alloc: Global,
    file: u64,
    formals: &[Formal],
    found: Option<Refusal>,
) -> Result<Option<Refusal>, WantOfMemory>
    ensures { IfOk result (λ it. it ≡ least found (formals_twice file formals.now)) }
{
    if formals.len() < 2 {
        return Ok(found);
    }
    each_twice(alloc, file, formals, found)
}
