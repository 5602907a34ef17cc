//! What an expression is warned of at its own place.
ghost use Rattle.std.specs.Prelude.{◌≡◌, ◌<◌, ◌&&◌, IfOk, OnOk, length};
ghost use Rattle.jc_typed.specs.Parts.{BelowForm, form_over, operand_of, operands_of, parts, type_of, variable_of};
ghost use Rattle.jc_unchecked_spec.specs.declared.warning.WarningKind.TheVariants as kind;
ghost use Rattle.jc_unchecked_spec.specs.Bodies.{erasure_changes, form_warned, is_raw_field, member_warned, type_of_operand};
ghost use Rattle.jc_unchecked_spec.specs.Casts.{is_unchecked_cast};
ghost use Rattle.jc_unchecked_spec.specs.Kinds.{warned_if};
ghost use Rattle.jc_unchecked_list.specs.Telling.{told};

use crate::conversions::{makes_generic, type_of_operand};
use crate::members::{erasure_changes, is_raw_field};
use crate::walk::Walk;
use jc_rules::{Items, Place, WantOfMemory};
use jc_typed::ExprForm;
use jc_types::{MethodId, Phase};
use jc_unchecked_casts::{Scene, is_unchecked_cast};
use jc_unchecked_list::tell_if;
use jc_unchecked_spec::{Warning, WarningKind};

/// A call of a member, or the creation of an object by it: the member, its arguments, and how they are passed.
#[derive(Clone, Copy)]
pub struct MemberUse {
    pub place: Place,
    pub method: MethodId,
    pub args: u32,
    pub phase: Phase,
    pub is_raw: bool,
}

fn is_raw_use(walk: &Walk, used: MemberUse) -> Result<bool, WantOfMemory>
    ensures { IfOk result (λ r. r ≡ (used.is_raw && erasure_changes walk.now.table.now used.method)) }
{
    if !used.is_raw {
        return Ok(false);
    }
    erasure_changes(walk, used.method)
}

/// What a call of a member is warned of.
#[tactic(auto, using(jc_unchecked_list::proofs::Told::telling))]
pub fn tell_member(
    walk: &Walk,
    used: MemberUse,
    out: &mut Items<Warning>,
) -> Result<(), WantOfMemory>
    requires { used.args < length walk.now.nodes.now }
    ensures { OnOk result (out.new ≡ told (member_warned walk.now.table.now walk.now.env.now.bounds used.place used.method (operands_of walk.now.nodes.now used.args) used.phase used.is_raw) out.old) }
{
    let generic = makes_generic(walk, used.phase, used.args)?;
    tell_if(generic, WarningKind::GenericArray, used.place, out)?;
    let raw = is_raw_use(walk, used)?;
    tell_if(raw, WarningKind::RawCall, used.place, out)
}

fn tell_assigned(
    walk: &Walk,
    place: Place,
    variable: u32,
    out: &mut Items<Warning>,
) -> Result<(), WantOfMemory>
    requires { variable < length walk.now.nodes.now }
    ensures { OnOk result (out.new ≡ told (warned_if (is_raw_field walk.now.table.now (variable_of walk.now.nodes.now variable)) kind.RawField place) out.old) }
{
    let raw = is_raw_field(walk, variable)?;
    tell_if(raw, WarningKind::RawField, place, out)
}

fn tell_cast(
    walk: &Walk,
    place: Place,
    of: u32,
    to: u32,
    out: &mut Items<Warning>,
) -> Result<(), WantOfMemory>
    requires of { of < length walk.now.nodes.now }
    requires to { to < length walk.now.nodes.now }
    ensures { OnOk result (out.new ≡ told (warned_if (is_unchecked_cast walk.now.table.now walk.now.env.now.bounds (type_of_operand (operand_of walk.now.nodes.now of)) (type_of walk.now.nodes.now to)) kind.Cast place) out.old) }
{
    let scene = Scene {
        alloc: walk.alloc,
        table: walk.table,
        env: walk.env,
    };
    let from = type_of_operand(walk, of)?;
    let unchecked = is_unchecked_cast(&scene, &from, walk.nodes.ty(to))?;
    tell_if(unchecked, WarningKind::Cast, place, out)
}

/// What an expression of a form is warned of at its own place.
pub fn tell_form(
    walk: &Walk,
    at: u32,
    place: Place,
    form: ExprForm,
    out: &mut Items<Warning>,
) -> Result<(), WantOfMemory>
    requires within { at < length walk.now.nodes.now }
    requires below { BelowForm at form }
    ensures { OnOk result (out.new ≡ told (form_warned walk.now.table.now walk.now.env.now.bounds place (form_over (parts walk.now.nodes.now) form)) out.old) }
{
    match form {
        ExprForm::Assign { variable, .. } => tell_assigned(walk, place, variable, out),
        ExprForm::Compound { variable, .. } => tell_assigned(walk, place, variable, out),
        ExprForm::Change { variable, .. } => tell_assigned(walk, place, variable, out),
        ExprForm::Call {
            method,
            args,
            phase,
            is_raw,
            ..
        } => {
            let used = MemberUse {
                place,
                method,
                args,
                phase,
                is_raw,
            };
            tell_member(walk, used, out)
        }
        ExprForm::New {
            constructor,
            args,
            phase,
            is_raw,
            ..
        } => {
            let used = MemberUse {
                place,
                method: constructor,
                args,
                phase,
                is_raw,
            };
            tell_member(walk, used, out)
        }
        ExprForm::Cast { of, to, .. } => tell_cast(walk, place, of, to, out),
        ExprForm::Constant { .. } => Ok(()),
        ExprForm::Null => Ok(()),
        ExprForm::Local { .. } => Ok(()),
        ExprForm::This => Ok(()),
        ExprForm::StaticField { .. } => Ok(()),
        ExprForm::Field { .. } => Ok(()),
        ExprForm::Element { .. } => Ok(()),
        ExprForm::Length { .. } => Ok(()),
        ExprForm::Prefix { .. } => Ok(()),
        ExprForm::Chain { .. } => Ok(()),
        ExprForm::AllOf { .. } => Ok(()),
        ExprForm::AnyOf { .. } => Ok(()),
        ExprForm::InstanceOf { .. } => Ok(()),
        ExprForm::Conditional { .. } => Ok(()),
        ExprForm::NewArray { .. } => Ok(()),
        ExprForm::ArrayOf { .. } => Ok(()),
    }
}
