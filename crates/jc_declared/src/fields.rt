//! Fields (JLS 8.3, 9.3).
ghost use Rattle.std.specs.Prelude.{◌≡◌, ℕ, ◌++◌, ◌∷◌, [], ◌||◌, IfOk, OnOk};
ghost use Rattle.jc_declares.specs.Heads.{is_interface};
ghost use Rattle.jc_declares.specs.Words.{says_static};
ghost use Rattle.jc_declares.specs.Making.{constant_value, field_decl, numbered};
ghost use Rattle.jc_declared.specs.Parts.{field_in};
ghost use Rattle.jc_declared.specs.Types.{value_of};
ghost use Rattle.jc_looking.specs.Members.{known_in};
ghost use Rattle.jc_looking.specs.Scenes.{IsScene};
ghost use Rattle.jc_written.specs.At.{reading_at};

use crate::places::{class_file, is_interface};
use jc_constants::constant_of;
use jc_declares::Heads;
use jc_heads::says;
use jc_looking::Scene;
use jc_modifiers::field_modifiers;
use jc_rules::{Boxed, Items, Place, WantOfMemory};
use jc_sites::FieldSite;
use jc_tree::{Init, LocalVars, ModifierWord, Var, copy_text};
use jc_types::{ClassId, ConstantExpr, FieldDecl, FieldValue, Modifiers, ScopeId};
use jc_written::{Reading, body_reading, written_type};
use std::alloc::Global;

/// Where a field is declared: its file, its class and the scope of that.
#[derive(Clone, Copy)]
struct Spot {
    file: u64,
    class: u64,
    scope: u64,
}

/// Whether a field is static, as those of interfaces are (JLS 9.3).
fn is_static_field(heads: &Heads, class: u64, vars: &LocalVars) -> bool
    ensures { result ≡ (is_interface heads.now class || says_static vars.now.modifiers) }
{
    is_interface(heads, class) || says(ModifierWord::Static, vars.modifiers.slice())
}

fn constant_value(scope: u64, constant: Option<Boxed<ConstantExpr>>) -> FieldValue
    ensures { result ≡ constant_value scope constant }
{
    match constant {
        None => FieldValue::Unknown,
        Some(expr) => FieldValue::Initialiser {
            scope: ScopeId(scope),
            expr: expr.into_inner(),
        },
    }
}

/// What is known of a variable's value: of a final one the initialiser, if it has the forms of a constant expression (JLS 4.12.4).
fn field_value(
    alloc: Global,
    scene: &Scene,
    reading: Reading,
    spot: Spot,
    is_final: bool,
    init: &Option<Init>,
) -> Result<FieldValue, WantOfMemory>
    requires { IsScene scene.now.declared.heads.now scene.now.declared.index.now scene.now.imports.now }
    ensures { let H = scene.now.declared.heads.now in let K = known_in scene.now.known.now in IfOk result (λ it. it ≡ value_of H K spot.file (reading_at H K reading) spot.scope init.now is_final) }
{
    if !is_final {
        return Ok(FieldValue::Unknown);
    }
    let constant = constant_of(alloc, scene, reading, spot.file, init)?;
    Ok(constant_value(spot.scope, constant))
}

/// A variable of those that are declared together, whose type and value are read in one way.
fn field_at(
    alloc: Global,
    scene: &Scene,
    reading: Reading,
    spot: Spot,
    modifiers: Modifiers,
    vars: &LocalVars,
    var: &Var,
) -> Result<FieldDecl, WantOfMemory>
    requires { IsScene scene.now.declared.heads.now scene.now.declared.index.now scene.now.imports.now }
    ensures { let H = scene.now.declared.heads.now in let K = known_in scene.now.known.now in IfOk result (λ it. it ≡ field_in H K (reading_at H K reading) spot.file spot.class spot.scope modifiers vars.now var.now) }
{
    let name = copy_text(alloc, &var.name.text)?;
    let dims = u64::from(var.dims);
    let is_final = modifiers.is_final;
    let value = field_value(alloc, scene, reading, spot, is_final, &var.init)?;
    Ok(FieldDecl {
        place: Place {
            file: spot.file,
            at: var.name.at,
        },
        class: ClassId(spot.class),
        name,
        modifiers,
        ty: written_type(alloc, scene, reading, spot.file, &vars.ty, dims)?,
        value,
    })
}

/// A variable of those that are declared together in the body of a class.
fn field_decl(
    alloc: Global,
    scene: &Scene,
    class: u64,
    scope: u64,
    vars: &LocalVars,
    var: &Var,
) -> Result<FieldDecl, WantOfMemory>
    requires { IsScene scene.now.declared.heads.now scene.now.declared.index.now scene.now.imports.now }
    ensures { (k : ℕ) → let H = scene.now.declared.heads.now in let K = known_in scene.now.known.now in IfOk result (λ it. it ≡ field_decl H K k (record { class = class; scope = scope; vars = vars.now; var = var.now })) }
{
    let heads = scene.declared.heads;
    let file = class_file(heads, class);
    let of_interface = is_interface(heads, class);
    let modifiers = field_modifiers(of_interface, vars.modifiers.slice());
    let is_static = is_static_field(heads, class, vars);
    let reading = body_reading(class, is_static);
    let spot = Spot { file, class, scope };
    let field = field_at(alloc, scene, reading, spot, modifiers, vars, var)?;
    Ok(field)
}

/// Adds a field.
fn push_field(
    alloc: Global,
    list: &mut Items<FieldDecl>,
    scene: &Scene,
    site: &FieldSite,
) -> Result<(), WantOfMemory>
    requires { IsScene scene.now.declared.heads.now scene.now.declared.index.now scene.now.imports.now }
    ensures { (k : ℕ) → let H = scene.now.declared.heads.now in let K = known_in scene.now.known.now in OnOk result (list.new ≡ list.old ++ field_decl H K k site.now ∷ []) }
{
    let field = field_decl(alloc, scene, site.class, site.scope, site.vars, site.var)?;
    list.push(field)?;
    Ok(())
}

/// Adds all fields of a program.
pub fn push_fields(
    alloc: Global,
    list: &mut Items<FieldDecl>,
    scene: &Scene,
    sites: &[FieldSite],
) -> Result<(), WantOfMemory>
    requires { IsScene scene.now.declared.heads.now scene.now.declared.index.now scene.now.imports.now }
    ensures { let H = scene.now.declared.heads.now in let K = known_in scene.now.known.now in OnOk result (list.new ≡ list.old ++ numbered (field_decl H K) 0 sites.now) }
{
    for site in sites {
        push_field(alloc, list, scene, site)?;
    }
    Ok(())
}
