//! The constants that a class uses, told to a visitor one after the other.
ghost use Rattle.std.specs.Prelude.{◌≡◌, ◌∷◌, [], OnOk};
ghost use Rattle.std.specs.List.{flat_map};
ghost use Rattle.jc_class_out.specs.Pool.{Known, KnownText};
ghost use Rattle.jc_class_out.specs.Forms.{start_locals, locals_before, form_of};
ghost use Rattle.jc_class_out.specs.Spelling.{known, Told, class_uses, pair_uses, class_or_none_uses, name_or_none_uses, loaded_uses, member_uses, operand_uses, ins_uses, ins_first_uses, handler_uses, item_uses, form_uses, frames_uses, table_uses, code_uses, code_or_none_uses, method_uses, method_first_uses, field_uses, inner_uses, inners_uses, members_uses, loads_of, uses};

use crate::forms::{Before, Form, Start, locals_in, shortest, stack_in, start_of};
use crate::kinds::kind;
use crate::pool::{CODE, INNER_CLASSES, STACK_MAP_TABLE};
use crate::writing::member_constant;
use crate::{
    ClassModel, CodeModel, Constant, FieldModel, Frame, Handler, InnerModel, Ins, Item, Kind,
    Loaded, MethodModel, Operand,
};
use jc_rules::Items;

/// Who is told of constants.
pub trait Visitor<'a> {
    /// What it stops at.
    type Stop: Drop;

    ghost sees: { Self → Known → Self → Type 0 };

    fn visit(&mut self, constant: Constant<'a>) -> Result<(), Self::Stop>
        ensures { OnOk result (sees self.old (known constant.entry) self.new) };
}

fn walk_text<'a, V: Visitor<'a>>(visitor: &mut V, text: &'a Items<u16>) -> Result<(), V::Stop>
    ensures { OnOk result (Told V.sees visitor.old (KnownText text.now ∷ []) visitor.new) }
{
    visitor.visit(Constant::Text(text.slice()))
}

fn walk_class<'a, V: Visitor<'a>>(visitor: &mut V, name: &'a Items<u16>) -> Result<(), V::Stop>
    ensures { OnOk result (Told V.sees visitor.old (class_uses name.now) visitor.new) }
{
    visitor.visit(Constant::Text(name.slice()))?;
    visitor.visit(Constant::Class(name.slice()))?;
    Ok(())
}

fn walk_class_or_none<'a, V: Visitor<'a>>(
    visitor: &mut V,
    name: &'a Option<Items<u16>>,
) -> Result<(), V::Stop>
    ensures { OnOk result (Told V.sees visitor.old (class_or_none_uses name.now) visitor.new) }
{
    match name {
        None => Ok(()),
        Some(name) => walk_class(visitor, name),
    }
}

fn walk_name_or_none<'a, V: Visitor<'a>>(
    visitor: &mut V,
    name: &'a Option<Items<u16>>,
) -> Result<(), V::Stop>
    ensures { OnOk result (Told V.sees visitor.old (name_or_none_uses name.now) visitor.new) }
{
    match name {
        None => Ok(()),
        Some(name) => walk_text(visitor, name),
    }
}

fn walk_loaded<'a, V: Visitor<'a>>(visitor: &mut V, loaded: &'a Loaded) -> Result<(), V::Stop>
    ensures { OnOk result (Told V.sees visitor.old (loaded_uses loaded.now) visitor.new) }
{
    match loaded {
        Loaded::Whole(n) => visitor.visit(Constant::Whole(*n)),
        Loaded::Long(n) => {
            visitor.visit(Constant::Long(*n))?;
            visitor.visit(Constant::Behind(*n))?;
            Ok(())
        }
        Loaded::Text(text) => {
            visitor.visit(Constant::Text(text.slice()))?;
            visitor.visit(Constant::Literal(text.slice()))?;
            Ok(())
        }
    }
}

fn walk_pair<'a, V: Visitor<'a>>(
    visitor: &mut V,
    name: &'a [u16],
    descriptor: &'a [u16],
) -> Result<(), V::Stop>
    ensures { OnOk result (Told V.sees visitor.old (pair_uses name.now descriptor.now) visitor.new) }
{
    visitor.visit(Constant::Text(name))?;
    visitor.visit(Constant::Text(descriptor))?;
    visitor.visit(Constant::Pair(name, descriptor))?;
    Ok(())
}

#[tactic(auto, unfolding(crate::specs::Spelling::member_uses), using(crate::proofs::Tellings::told_append))]
fn walk_member<'a, V: Visitor<'a>>(
    visitor: &mut V,
    kind: Kind,
    class: &'a Items<u16>,
    name: &'a Items<u16>,
    descriptor: &'a Items<u16>,
) -> Result<(), V::Stop>
    ensures { OnOk result (Told V.sees visitor.old (member_uses kind class.now name.now descriptor.now) visitor.new) }
{
    walk_class(visitor, class)?;
    walk_pair(visitor, name.slice(), descriptor.slice())?;
    visitor.visit(member_constant(kind, class, name, descriptor))?;
    Ok(())
}

#[tactic(auto, unfolding(crate::specs::Spelling::operand_uses))]
fn walk_operand<'a, V: Visitor<'a>>(
    visitor: &mut V,
    kind: Kind,
    operand: &'a Operand,
) -> Result<(), V::Stop>
    ensures { OnOk result (Told V.sees visitor.old (operand_uses kind operand.now) visitor.new) }
{
    match operand {
        Operand::Load(loaded) => walk_loaded(visitor, loaded),
        Operand::Member {
            class,
            name,
            descriptor,
        } => walk_member(visitor, kind, class, name, descriptor),
        Operand::Class(class) => walk_class(visitor, class),
        Operand::Dims { class, .. } => walk_class(visitor, class),
        _ => Ok(()),
    }
}

#[tactic(auto, using(crate::proofs::Tellings::told_more))]
fn walk_code<'a, V: Visitor<'a>>(visitor: &mut V, list: &'a [Ins]) -> Result<(), V::Stop>
    ensures { OnOk result (Told V.sees visitor.old (flat_map ins_uses list.now) visitor.new) }
{
    for ins in list {
        walk_operand(visitor, kind(ins.code), &ins.operand)?;
    }
    Ok(())
}

/// What ldc loads.
#[tactic(auto, unfolding(crate::specs::Spelling::ins_first_uses))]
fn walk_load<'a, V: Visitor<'a>>(visitor: &mut V, ins: &'a Ins) -> Result<(), V::Stop>
    ensures { OnOk result (Told V.sees visitor.old (ins_first_uses ins.now) visitor.new) }
{
    match (kind(ins.code), &ins.operand) {
        (Kind::Load, Operand::Load(Loaded::Whole(n))) => visitor.visit(Constant::Whole(*n)),
        (Kind::Load, Operand::Load(Loaded::Text(text))) => {
            visitor.visit(Constant::Literal(text.slice()))
        }
        _ => Ok(()),
    }
}

#[tactic(auto, using(crate::proofs::Tellings::told_more))]
fn walk_loads<'a, V: Visitor<'a>>(visitor: &mut V, list: &'a [Ins]) -> Result<(), V::Stop>
    ensures { OnOk result (Told V.sees visitor.old (flat_map ins_first_uses list.now) visitor.new) }
{
    for ins in list {
        walk_load(visitor, ins)?;
    }
    Ok(())
}

#[tactic(auto, using(crate::proofs::Tellings::told_more))]
fn walk_handlers<'a, V: Visitor<'a>>(
    visitor: &mut V,
    handlers: &'a [Handler],
) -> Result<(), V::Stop>
    ensures { OnOk result (Told V.sees visitor.old (flat_map handler_uses handlers.now) visitor.new) }
{
    for handler in handlers {
        walk_class_or_none(visitor, &handler.class)?;
    }
    Ok(())
}

fn walk_item<'a, V: Visitor<'a>>(visitor: &mut V, item: &'a Item) -> Result<(), V::Stop>
    ensures { OnOk result (Told V.sees visitor.old (item_uses item.now) visitor.new) }
{
    match item {
        Item::Object(name) => walk_class(visitor, name),
        _ => Ok(()),
    }
}

#[tactic(auto, using(crate::proofs::Tellings::told_more))]
fn walk_items<'a, V: Visitor<'a>>(visitor: &mut V, items: &'a [Item]) -> Result<(), V::Stop>
    ensures { OnOk result (Told V.sees visitor.old (flat_map item_uses items.now) visitor.new) }
{
    for item in items {
        walk_item(visitor, item)?;
    }
    Ok(())
}

#[tactic(auto, unfolding(crate::specs::Spelling::form_uses), using(crate::proofs::Tellings::told_append))]
fn walk_form<'a, V: Visitor<'a>>(
    visitor: &mut V,
    frame: &'a Frame,
    form: Form,
) -> Result<(), V::Stop>
    ensures { OnOk result (Told V.sees visitor.old (form_uses frame.now form) visitor.new) }
{
    walk_items(visitor, locals_in(frame, form))?;
    walk_items(visitor, stack_in(frame, form))?;
    Ok(())
}

fn walk_frame<'a, V: Visitor<'a>>(
    visitor: &mut V,
    before: Before<'a>,
    frame: &'a Frame,
) -> Result<(), V::Stop>
    ensures { OnOk result (Told V.sees visitor.old (form_uses frame.now (form_of (locals_before before.entry) frame.now)) visitor.new) }
{
    walk_form(visitor, frame, shortest(before, frame))?;
    Ok(())
}

#[tactic(auto, unfolding(crate::specs::Spelling::frames_uses), using(crate::proofs::Tellings::told_frame, crate::proofs::Tellings::seen_next))]
fn walk_frames<'a, V: Visitor<'a>>(
    visitor: &mut V,
    start: Start<'a>,
    frames: &'a [Frame],
) -> Result<(), V::Stop>
    ensures { OnOk result (Told V.sees visitor.old (frames_uses (start_locals start.entry) frames.now) visitor.new) }
{
    let mut before = Before::Entry(start);
    for frame in frames {
        walk_frame(visitor, before, frame)?;
        before = Before::Behind(frame);
    }
    Ok(())
}

fn walk_table<'a, V: Visitor<'a>>(
    visitor: &mut V,
    start: Start<'a>,
    frames: &'a [Frame],
) -> Result<(), V::Stop>
    ensures { OnOk result (Told V.sees visitor.old (table_uses (start_locals start.entry) frames.now) visitor.new) }
{
    match frames {
        [] => Ok(()),
        [_, ..] => {
            visitor.visit(Constant::Text(&STACK_MAP_TABLE))?;
            walk_frames(visitor, start, frames)?;
            Ok(())
        }
    }
}

#[tactic(auto, unfolding(crate::specs::Spelling::code_uses), using(crate::proofs::Tellings::told_append))]
fn walk_code_model<'a, V: Visitor<'a>>(
    visitor: &mut V,
    start: Start<'a>,
    code: &'a CodeModel,
) -> Result<(), V::Stop>
    ensures { OnOk result (Told V.sees visitor.old (code_uses (start_locals start.entry) code.now) visitor.new) }
{
    walk_code(visitor, code.ins.slice())?;
    walk_handlers(visitor, code.handlers.slice())?;
    walk_table(visitor, start, code.frames.slice())?;
    Ok(())
}

fn walk_code_or_none<'a, V: Visitor<'a>>(
    visitor: &mut V,
    start: Start<'a>,
    code: &'a Option<CodeModel>,
) -> Result<(), V::Stop>
    ensures { OnOk result (Told V.sees visitor.old (code_or_none_uses (start_locals start.entry) code.now) visitor.new) }
{
    match code {
        None => Ok(()),
        Some(code) => {
            visitor.visit(Constant::Text(&CODE))?;
            walk_code_model(visitor, start, code)?;
            Ok(())
        }
    }
}

#[tactic(auto, unfolding(crate::specs::Spelling::method_uses))]
fn walk_method<'a, V: Visitor<'a>>(
    visitor: &mut V,
    class: &'a Items<u16>,
    method: &'a MethodModel,
) -> Result<(), V::Stop>
    ensures { OnOk result (Told V.sees visitor.old (method_uses class.now method.now) visitor.new) }
{
    visitor.visit(Constant::Text(method.name.slice()))?;
    visitor.visit(Constant::Text(method.descriptor.slice()))?;
    walk_code_or_none(visitor, start_of(class, method), &method.code)?;
    Ok(())
}

#[tactic(auto, using(crate::proofs::Tellings::told_more))]
fn walk_methods<'a, V: Visitor<'a>>(
    visitor: &mut V,
    class: &'a Items<u16>,
    methods: &'a [MethodModel],
) -> Result<(), V::Stop>
    ensures { OnOk result (Told V.sees visitor.old (flat_map (method_uses class.now) methods.now) visitor.new) }
{
    for method in methods {
        walk_method(visitor, class, method)?;
    }
    Ok(())
}

fn walk_method_loads<'a, V: Visitor<'a>>(
    visitor: &mut V,
    method: &'a MethodModel,
) -> Result<(), V::Stop>
    ensures { OnOk result (Told V.sees visitor.old (method_first_uses method.now) visitor.new) }
{
    match &method.code {
        None => Ok(()),
        Some(code) => walk_loads(visitor, code.ins.slice()),
    }
}

/// Tells the visitor what the class loads by ldc.
#[tactic(auto, unfolding(crate::specs::Spelling::loads_of), using(crate::proofs::Tellings::told_more))]
pub fn tell_loads<'a, V: Visitor<'a>>(visitor: &mut V, class: &'a ClassModel) -> Result<(), V::Stop>
    ensures { OnOk result (Told V.sees visitor.old (loads_of class.now) visitor.new) }
{
    let methods = class.methods.slice();
    for method in methods {
        walk_method_loads(visitor, method)?;
    }
    Ok(())
}

#[tactic(auto, unfolding(crate::specs::Spelling::field_uses))]
fn walk_field<'a, V: Visitor<'a>>(visitor: &mut V, field: &'a FieldModel) -> Result<(), V::Stop>
    ensures { OnOk result (Told V.sees visitor.old (field_uses field.now) visitor.new) }
{
    visitor.visit(Constant::Text(field.name.slice()))?;
    visitor.visit(Constant::Text(field.descriptor.slice()))?;
    Ok(())
}

#[tactic(auto, using(crate::proofs::Tellings::told_more))]
fn walk_fields<'a, V: Visitor<'a>>(visitor: &mut V, fields: &'a [FieldModel]) -> Result<(), V::Stop>
    ensures { OnOk result (Told V.sees visitor.old (flat_map field_uses fields.now) visitor.new) }
{
    for field in fields {
        walk_field(visitor, field)?;
    }
    Ok(())
}

#[tactic(auto, unfolding(crate::specs::Spelling::inner_uses), using(crate::proofs::Tellings::told_append))]
fn walk_inner<'a, V: Visitor<'a>>(visitor: &mut V, row: &'a InnerModel) -> Result<(), V::Stop>
    ensures { OnOk result (Told V.sees visitor.old (inner_uses row.now) visitor.new) }
{
    walk_class(visitor, &row.inner)?;
    walk_class_or_none(visitor, &row.outer)?;
    walk_name_or_none(visitor, &row.name)?;
    Ok(())
}

#[tactic(auto, using(crate::proofs::Tellings::told_more))]
fn walk_rows<'a, V: Visitor<'a>>(visitor: &mut V, rows: &'a [InnerModel]) -> Result<(), V::Stop>
    ensures { OnOk result (Told V.sees visitor.old (flat_map inner_uses rows.now) visitor.new) }
{
    for row in rows {
        walk_inner(visitor, row)?;
    }
    Ok(())
}

fn walk_inners<'a, V: Visitor<'a>>(visitor: &mut V, rows: &'a [InnerModel]) -> Result<(), V::Stop>
    ensures { OnOk result (Told V.sees visitor.old (inners_uses rows.now) visitor.new) }
{
    match rows {
        [] => Ok(()),
        [_, ..] => {
            visitor.visit(Constant::Text(&INNER_CLASSES))?;
            walk_rows(visitor, rows)?;
            Ok(())
        }
    }
}

#[tactic(auto, using(crate::proofs::Tellings::told_more))]
fn walk_interfaces<'a, V: Visitor<'a>>(
    visitor: &mut V,
    names: &'a [Items<u16>],
) -> Result<(), V::Stop>
    ensures { OnOk result (Told V.sees visitor.old (flat_map class_uses names.now) visitor.new) }
{
    for name in names {
        walk_class(visitor, name)?;
    }
    Ok(())
}

#[tactic(auto, unfolding(crate::specs::Spelling::members_uses), using(crate::proofs::Tellings::told_append))]
fn walk_members<'a, V: Visitor<'a>>(visitor: &mut V, class: &'a ClassModel) -> Result<(), V::Stop>
    ensures { OnOk result (Told V.sees visitor.old (members_uses class.now) visitor.new) }
{
    walk_class(visitor, &class.name)?;
    walk_class_or_none(visitor, &class.superclass)?;
    walk_interfaces(visitor, class.interfaces.slice())?;
    walk_fields(visitor, class.fields.slice())?;
    walk_methods(visitor, &class.name, class.methods.slice())?;
    walk_inners(visitor, class.inner.slice())?;
    Ok(())
}

/// Tells the visitor each constant that the class uses, those of ldc first.
#[tactic(auto, unfolding(crate::specs::Spelling::uses), using(crate::proofs::Tellings::told_append))]
pub fn tell_uses<'a, V: Visitor<'a>>(visitor: &mut V, class: &'a ClassModel) -> Result<(), V::Stop>
    ensures { OnOk result (Told V.sees visitor.old (uses class.now) visitor.new) }
{
    tell_loads(visitor, class)?;
    walk_members(visitor, class)?;
    Ok(())
}
