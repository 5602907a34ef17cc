//! What instructions take and give.
ghost use Rattle.std.specs.Prelude.{◌≡◌};
ghost use Rattle.jc_jvm.specs.Table.{group_of as group_by, alone_of, with_number, with_constant, on_local as by_local, by_step, jump_to, plain_of as plain_by};

use jc_class_out::{Loaded, Operand};
use jc_jvm::{
    Comparison, Division, Element, Group, IntConversion, LongConversion, Operator, Plain, Shift,
    Sort, Value, Width,
};
use jc_opcodes::Opcode;

/// What an instruction takes and gives.
pub fn group_of(code: Opcode) -> Group
    ensures { result ≡ group_by code }
{
    match code {
        Opcode::AconstNull => Group::Alone(Plain::Push(Value::NullValue)),
        Opcode::IconstM1 => Group::Alone(Plain::Push(Value::Whole(-1))),
        Opcode::Iconst0 => Group::Alone(Plain::Push(Value::Whole(0))),
        Opcode::Iconst1 => Group::Alone(Plain::Push(Value::Whole(1))),
        Opcode::Iconst2 => Group::Alone(Plain::Push(Value::Whole(2))),
        Opcode::Iconst3 => Group::Alone(Plain::Push(Value::Whole(3))),
        Opcode::Iconst4 => Group::Alone(Plain::Push(Value::Whole(4))),
        Opcode::Iconst5 => Group::Alone(Plain::Push(Value::Whole(5))),
        Opcode::Lconst0 => Group::Alone(Plain::Push(Value::Long(0))),
        Opcode::Lconst1 => Group::Alone(Plain::Push(Value::Long(1))),
        Opcode::Bipush => Group::Numbers,
        Opcode::Sipush => Group::Numbers,
        Opcode::Ldc => Group::Literals,
        Opcode::LdcW => Group::Literals,
        Opcode::Ldc2W => Group::Longs,
        Opcode::Iload => Group::Loads(Sort::WholeSort),
        Opcode::Lload => Group::Loads(Sort::LongSort),
        Opcode::Aload => Group::Loads(Sort::ReferenceSort),
        Opcode::Istore => Group::Stores(Sort::WholeSort),
        Opcode::Lstore => Group::Stores(Sort::LongSort),
        Opcode::Astore => Group::Stores(Sort::ReferenceSort),
        Opcode::Iinc => Group::Steps,
        Opcode::Iaload => Group::ElementLoads(Element::OfInt),
        Opcode::Laload => Group::ElementLoads(Element::OfLong),
        Opcode::Aaload => Group::ElementLoads(Element::OfReference),
        Opcode::Baload => Group::ElementLoads(Element::OfByte),
        Opcode::Caload => Group::ElementLoads(Element::OfChar),
        Opcode::Saload => Group::ElementLoads(Element::OfShort),
        Opcode::Iastore => Group::ElementStores(Element::OfInt),
        Opcode::Lastore => Group::ElementStores(Element::OfLong),
        Opcode::Aastore => Group::ElementStores(Element::OfReference),
        Opcode::Bastore => Group::ElementStores(Element::OfByte),
        Opcode::Castore => Group::ElementStores(Element::OfChar),
        Opcode::Sastore => Group::ElementStores(Element::OfShort),
        Opcode::Pop => Group::Alone(Plain::Discard(Width::OneUnit)),
        Opcode::Pop2 => Group::Alone(Plain::Discard(Width::TwoUnits)),
        Opcode::Swap => Group::Alone(Plain::Swap),
        Opcode::Dup => Group::Alone(Plain::Duplicate {
            copied: Width::OneUnit,
            under: Width::NoUnit,
        }),
        Opcode::DupX1 => Group::Alone(Plain::Duplicate {
            copied: Width::OneUnit,
            under: Width::OneUnit,
        }),
        Opcode::DupX2 => Group::Alone(Plain::Duplicate {
            copied: Width::OneUnit,
            under: Width::TwoUnits,
        }),
        Opcode::Dup2 => Group::Alone(Plain::Duplicate {
            copied: Width::TwoUnits,
            under: Width::NoUnit,
        }),
        Opcode::Dup2X1 => Group::Alone(Plain::Duplicate {
            copied: Width::TwoUnits,
            under: Width::OneUnit,
        }),
        Opcode::Dup2X2 => Group::Alone(Plain::Duplicate {
            copied: Width::TwoUnits,
            under: Width::TwoUnits,
        }),
        Opcode::Iadd => Group::Alone(Plain::CalculateInt(Operator::Add)),
        Opcode::Isub => Group::Alone(Plain::CalculateInt(Operator::Subtract)),
        Opcode::Imul => Group::Alone(Plain::CalculateInt(Operator::Multiply)),
        Opcode::Ishl => Group::Alone(Plain::ShiftInt(Shift::Left)),
        Opcode::Ishr => Group::Alone(Plain::ShiftInt(Shift::Right)),
        Opcode::Iushr => Group::Alone(Plain::ShiftInt(Shift::Unsigned)),
        Opcode::Iand => Group::Alone(Plain::CalculateInt(Operator::And)),
        Opcode::Ior => Group::Alone(Plain::CalculateInt(Operator::Or)),
        Opcode::Ixor => Group::Alone(Plain::CalculateInt(Operator::Xor)),
        Opcode::Ladd => Group::Alone(Plain::CalculateLong(Operator::Add)),
        Opcode::Lsub => Group::Alone(Plain::CalculateLong(Operator::Subtract)),
        Opcode::Lmul => Group::Alone(Plain::CalculateLong(Operator::Multiply)),
        Opcode::Land => Group::Alone(Plain::CalculateLong(Operator::And)),
        Opcode::Lor => Group::Alone(Plain::CalculateLong(Operator::Or)),
        Opcode::Lxor => Group::Alone(Plain::CalculateLong(Operator::Xor)),
        Opcode::Lshl => Group::Alone(Plain::ShiftLong(Shift::Left)),
        Opcode::Lshr => Group::Alone(Plain::ShiftLong(Shift::Right)),
        Opcode::Lushr => Group::Alone(Plain::ShiftLong(Shift::Unsigned)),
        Opcode::Idiv => Group::Alone(Plain::DivideInt(Division::Quotient)),
        Opcode::Irem => Group::Alone(Plain::DivideInt(Division::Remainder)),
        Opcode::Ldiv => Group::Alone(Plain::DivideLong(Division::Quotient)),
        Opcode::Lrem => Group::Alone(Plain::DivideLong(Division::Remainder)),
        Opcode::Ineg => Group::Alone(Plain::ConvertInt(IntConversion::Negated)),
        Opcode::I2l => Group::Alone(Plain::ConvertInt(IntConversion::Widened)),
        Opcode::I2b => Group::Alone(Plain::ConvertInt(IntConversion::ToByte)),
        Opcode::I2c => Group::Alone(Plain::ConvertInt(IntConversion::ToChar)),
        Opcode::I2s => Group::Alone(Plain::ConvertInt(IntConversion::ToShort)),
        Opcode::Lneg => Group::Alone(Plain::ConvertLong(LongConversion::LongNegated)),
        Opcode::L2i => Group::Alone(Plain::ConvertLong(LongConversion::Narrowed)),
        Opcode::Lcmp => Group::Alone(Plain::CompareLongs),
        Opcode::Ifeq => Group::IntJumps(Comparison::Equal),
        Opcode::Ifne => Group::IntJumps(Comparison::Unequal),
        Opcode::Iflt => Group::IntJumps(Comparison::Less),
        Opcode::Ifge => Group::IntJumps(Comparison::NotLess),
        Opcode::Ifgt => Group::IntJumps(Comparison::Greater),
        Opcode::Ifle => Group::IntJumps(Comparison::NotGreater),
        Opcode::IfIcmpeq => Group::IntPairJumps(Comparison::Equal),
        Opcode::IfIcmpne => Group::IntPairJumps(Comparison::Unequal),
        Opcode::IfIcmplt => Group::IntPairJumps(Comparison::Less),
        Opcode::IfIcmpge => Group::IntPairJumps(Comparison::NotLess),
        Opcode::IfIcmpgt => Group::IntPairJumps(Comparison::Greater),
        Opcode::IfIcmple => Group::IntPairJumps(Comparison::NotGreater),
        Opcode::IfAcmpeq => Group::PairJumps { other: false },
        Opcode::IfAcmpne => Group::PairJumps { other: true },
        Opcode::Ifnull => Group::NullJumps { other: false },
        Opcode::Ifnonnull => Group::NullJumps { other: true },
        Opcode::Goto => Group::Jumps,
        Opcode::Lookupswitch => Group::Switches,
        Opcode::Ireturn => Group::Returns(Some(Sort::WholeSort)),
        Opcode::Lreturn => Group::Returns(Some(Sort::LongSort)),
        Opcode::Areturn => Group::Returns(Some(Sort::ReferenceSort)),
        Opcode::Return => Group::Returns(None),
        Opcode::Getstatic => Group::StaticLoads,
        Opcode::Putstatic => Group::StaticStores,
        Opcode::Getfield => Group::FieldLoads,
        Opcode::Putfield => Group::FieldStores,
        Opcode::Invokevirtual => Group::VirtualCalls,
        Opcode::Invokeinterface => Group::VirtualCalls,
        Opcode::Invokespecial => Group::SpecialCalls,
        Opcode::Invokestatic => Group::StaticCalls,
        Opcode::New => Group::News,
        Opcode::Newarray => Group::NewArrays,
        Opcode::Anewarray => Group::NewReferenceArrays,
        Opcode::Multianewarray => Group::NewNests,
        Opcode::Arraylength => Group::Lengths,
        Opcode::Athrow => Group::Throws,
        Opcode::Checkcast => Group::Casts,
        Opcode::Instanceof => Group::Tests,
    }
}

fn alone(group: Group) -> Option<Plain>
    ensures { result ≡ alone_of group }
{
    match group {
        Group::Alone(plain) => Some(plain),
        _ => None,
    }
}

fn number(group: Group, n: i32) -> Option<Plain>
    ensures { result ≡ with_number group n }
{
    match group {
        Group::Numbers => Some(Plain::Push(Value::Whole(n))),
        _ => None,
    }
}

fn constant(group: Group, constant: &Loaded) -> Option<Plain>
    ensures { result ≡ with_constant group constant.now }
{
    match (group, constant) {
        (Group::Literals, Loaded::Whole(n)) => Some(Plain::Push(Value::Whole(*n))),
        (Group::Longs, Loaded::Long(n)) => Some(Plain::Push(Value::Long(*n))),
        _ => None,
    }
}

fn on_local(group: Group, local: u16) -> Option<Plain>
    ensures { result ≡ by_local group local }
{
    match group {
        Group::Loads(sort) => Some(Plain::Load { sort, local }),
        Group::Stores(sort) => Some(Plain::Store { sort, local }),
        _ => None,
    }
}

fn step(group: Group, local: u16, by: i16) -> Option<Plain>
    ensures { result ≡ by_step group local by }
{
    match group {
        Group::Steps => Some(Plain::Increment { local, by }),
        _ => None,
    }
}

fn jump(group: Group, to: u32) -> Option<Plain>
    ensures { result ≡ jump_to group to }
{
    match group {
        Group::IntJumps(test) => Some(Plain::JumpByInt { test, to }),
        Group::IntPairJumps(test) => Some(Plain::JumpByInts { test, to }),
        Group::PairJumps { other } => Some(Plain::JumpByReferences { other, to }),
        Group::NullJumps { other } => Some(Plain::JumpByNull { other, to }),
        Group::Jumps => Some(Plain::Jump { to }),
        _ => None,
    }
}

/// The instruction of a group that touches its frame alone, with its operand; None where it is none.
pub fn plain_of(group: Group, operand: &Operand) -> Option<Plain>
    ensures { result ≡ plain_by group operand.now }
{
    match operand {
        Operand::Nothing => alone(group),
        Operand::Number(n) => number(group, *n),
        Operand::Load(loaded) => constant(group, loaded),
        Operand::Local(local) => on_local(group, *local),
        Operand::Step { local, by } => step(group, *local, *by),
        Operand::Jump(to) => jump(group, *to),
        Operand::Member { .. }
        | Operand::Class(_)
        | Operand::Dims { .. }
        | Operand::Switch { .. } => None,
    }
}
