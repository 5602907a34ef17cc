//! What becomes known of a class.
ghost use Rattle.std.specs.Prelude.{◌≡◌, ◌∷◌, [], ◌++◌, ◌||◌, IfOk, cond, not};
ghost use Rattle.jc_types.specs.Names.{named};
ghost use Rattle.jc_declares.specs.Heads.{declared_of, supers_of};
ghost use Rattle.jc_declares.specs.Modifiers.{is_private};
ghost use Rattle.jc_declares.specs.Knowing.{is_some, has_class, is_inheritable, inherited_of, inherited_from, all_known, settled_by, settled, written_supers};
ghost use Rattle.jc_name_index.specs.Index.{IsIndex};
ghost use Rattle.jc_looking.specs.Members.{known_in};
ghost use Rattle.jc_looking.specs.Scenes.{IsScene};
ghost use Rattle.jc_settling.specs.Members.{AreMembers};
ghost use Rattle.jc_settling.specs.Steps.{told};

use crate::gathering::Gathering;
use crate::members::Members;
use crate::needed::{needs, written_supers};
use jc_declares::Heads;
use jc_imports::Imports;
use jc_looking::{Inherited, Scene, access_of, is_accessible, known_of, package_of, top_of_class};
use jc_name_index::Indexed;
use jc_rules::{Items, Text, WantOfMemory};
use jc_types::Access;
use std::alloc::Global;

/// What classes are settled from: their heads with their index, what imports name, and the member types that each class declares.
#[derive(Clone, Copy)]
pub struct Sources<'a> {
    pub declared: Indexed<'a>,
    pub imports: &'a Imports,
    pub members: &'a Members,
}

/// What a class inherits, where it is settled, or what it needs.
#[derive(Drop)]
pub enum Outcome {
    Inherits(Inherited),
    Needs(Items<u64>),
}

fn is_private(access: Access) -> bool
    ensures { result ≡ is_private access }
{
    match access {
        Access::Private => true,
        _ => false,
    }
}

/// Whether a class inherits a member type of its supertypes that it doesn't hide: one that isn't private, and that it may name.
fn is_inheritable(heads: &Heads, class: u64, member: u64) -> bool
    ensures { result ≡ is_inheritable heads.now class member }
{
    if is_private(access_of(heads, member)) {
        return false;
    }
    let package = package_of(heads, class);
    is_accessible(heads, package, Some(top_of_class(heads, class)), member)
}

/// Gathers a member type of a supertype, unless the class hides it, has it already or doesn't inherit it.
fn gather(
    alloc: Global,
    declared: &Indexed,
    class: u64,
    found: Gathering,
    name: &Text,
    member: u64,
) -> Result<Gathering, WantOfMemory>
    requires { IsIndex declared.now.heads.now declared.now.index.now }
    ensures { IfOk result (λ it. it.found ≡ cond (is_some (named name.now (declared_of declared.now.heads.now class)) || has_class member found.found || not (is_inheritable declared.now.heads.now class member)) found.found (found.found ++ (name.now, member) ∷ [])) }
{
    if declared.member(class, name.str()).is_some() {
        return Ok(found);
    }
    if found.has(member) {
        return Ok(found);
    }
    if !is_inheritable(declared.heads, class, member) {
        return Ok(found);
    }
    found.with(alloc, name, member)
}

/// Gathers the member types of a supertype.
fn gather_all(
    alloc: Global,
    declared: &Indexed,
    class: u64,
    found: Gathering,
    members: &[(Text, u64)],
) -> Result<Gathering, WantOfMemory>
    requires { IsIndex declared.now.heads.now declared.now.index.now }
    ensures { IfOk result (λ it. it.found ≡ inherited_of declared.now.heads.now class found.found members.now) }
{
    let mut gathered = found;
    for member in members {
        gathered = gather(alloc, declared, class, gathered, &member.0, member.1)?;
    }
    Ok(gathered)
}

/// Gathers what a supertype declares and what it inherits.
fn gather_from(
    alloc: Global,
    sources: &Sources,
    class: u64,
    found: Gathering,
    super_class: u64,
    inherited: &Inherited,
) -> Result<Gathering, WantOfMemory>
    requires index { IsIndex sources.now.declared.heads.now sources.now.declared.index.now }
    requires members { AreMembers sources.now.declared.heads.now sources.now.members.now.lists.items }
    ensures { let heads = sources.now.declared.heads.now in IfOk result (λ it. it.found ≡ inherited_of heads class (inherited_of heads class found.found (declared_of heads super_class)) inherited.now) }
{
    let declared = sources.members.of(super_class);
    let gathered = gather_all(alloc, &sources.declared, class, found, declared)?;
    gather_all(
        alloc,
        &sources.declared,
        class,
        gathered,
        inherited.members(),
    )
}

/// What a class inherits from these supertypes, unless nothing is known of one of them.
fn inherited_from(
    alloc: Global,
    sources: &Sources,
    known: &[Option<Inherited>],
    class: u64,
    supers: &[u64],
) -> Result<Option<Inherited>, WantOfMemory>
    requires index { IsIndex sources.now.declared.heads.now sources.now.declared.index.now }
    requires members { AreMembers sources.now.declared.heads.now sources.now.members.now.lists.items }
    ensures { IfOk result (λ it. it ≡ inherited_from sources.now.declared.heads.now (known_in known.now) class supers.now []) }
{
    let mut gathered = Gathering::new(alloc);
    for super_class in supers {
        let Some(inherited) = known_of(known, *super_class) else {
            return Ok(None);
        };
        gathered = gather_from(alloc, sources, class, gathered, *super_class, inherited)?;
    }
    let Gathering { found, .. } = gathered;
    Ok(Some(found))
}

fn all_known(known: &[Option<Inherited>], classes: &[u64]) -> bool
    ensures { result ≡ all_known (known_in known.now) classes.now }
{
    for class in classes {
        if known_of(known, *class).is_none() {
            return false;
        }
    }
    true
}

/// What a class inherits, unless that asks of a class of which nothing is known.
fn inherits(
    alloc: Global,
    sources: &Sources,
    known: &[Option<Inherited>],
    class: u64,
) -> Result<Option<Inherited>, WantOfMemory>
    requires scene { IsScene sources.now.declared.heads.now sources.now.declared.index.now sources.now.imports.now }
    requires members { AreMembers sources.now.declared.heads.now sources.now.members.now.lists.items }
    ensures { let heads = sources.now.declared.heads.now in let known = known_in known.now in IfOk result (λ it. it ≡ settled_by heads known class (written_supers heads known class (supers_of heads class))) }
{
    let scene = Scene {
        declared: sources.declared,
        imports: sources.imports,
        known,
    };
    match written_supers(alloc, &scene, class)? {
        Some(supers) => inherited_from(alloc, sources, known, class, supers.slice()),
        None => Ok(None),
    }
}

/// What becomes known of a class where so much is known.
pub fn settled(
    alloc: Global,
    sources: &Sources,
    known: &[Option<Inherited>],
    class: u64,
) -> Result<Outcome, WantOfMemory>
    requires scene { IsScene sources.now.declared.heads.now sources.now.declared.index.now sources.now.imports.now }
    requires members { AreMembers sources.now.declared.heads.now sources.now.members.now.lists.items }
    ensures { IfOk result (λ it. told it ≡ settled sources.now.declared.heads.now (known_in known.now) class) }
{
    let scene = Scene {
        declared: sources.declared,
        imports: sources.imports,
        known,
    };
    let needed = needs(alloc, &scene, class)?;
    if sources.declared.heads.classes.get(class as usize).is_none() {
        return Ok(Outcome::Needs(needed));
    }
    if !all_known(known, needed.slice()) {
        return Ok(Outcome::Needs(needed));
    }
    match inherits(alloc, sources, known, class)? {
        Some(inherited) => Ok(Outcome::Inherits(inherited)),
        None => Ok(Outcome::Needs(needed)),
    }
}
