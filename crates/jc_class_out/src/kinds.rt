//! The kinds of operands that opcodes have.
ghost use Rattle.std.specs.Prelude.{◌≡◌};
ghost use Rattle.jc_class_out.specs.Instructions.{is_constant, is_element, is_stack, is_arithmetic, is_conversion, is_return, is_plain, is_local, is_jump, is_class, is_array_code, member_kind, branch_kind, kind_of};

use crate::Kind;

fn constant(code: u8) -> bool
    ensures { result ≡ is_constant code }
{
    0x01 <= code && code <= 0x0a
}

fn element(code: u8) -> bool
    ensures { result ≡ is_element code }
{
    (0x2e <= code && code <= 0x2f)
        || (0x32 <= code && code <= 0x35)
        || (0x4f <= code && code <= 0x50)
        || (0x53 <= code && code <= 0x56)
        || code == 0xbe
}

fn stack(code: u8) -> bool
    ensures { result ≡ is_stack code }
{
    0x57 <= code && code <= 0x5f
}

fn arithmetic(code: u8) -> bool
    ensures { result ≡ is_arithmetic code }
{
    (0x60 <= code && code <= 0x77 && code % 4 < 2) || (0x78 <= code && code <= 0x83) || code == 0x94
}

fn conversion(code: u8) -> bool
    ensures { result ≡ is_conversion code }
{
    code == 0x85 || code == 0x88 || (0x91 <= code && code <= 0x93)
}

fn ends_method(code: u8) -> bool
    ensures { result ≡ is_return code }
{
    (0xac <= code && code <= 0xad) || (0xb0 <= code && code <= 0xb1) || code == 0xbf
}

fn plain(code: u8) -> bool
    ensures { result ≡ is_plain code }
{
    constant(code)
        || element(code)
        || stack(code)
        || arithmetic(code)
        || conversion(code)
        || ends_method(code)
}

fn local(code: u8) -> bool
    ensures { result ≡ is_local code }
{
    (0x15 <= code && code <= 0x16) || code == 0x19 || (0x36 <= code && code <= 0x37) || code == 0x3a
}

fn jump(code: u8) -> bool
    ensures { result ≡ is_jump code }
{
    (0x99 <= code && code <= 0xa7) || (0xc6 <= code && code <= 0xc7)
}

fn of_class(code: u8) -> bool
    ensures { result ≡ is_class code }
{
    code == 0xbb || code == 0xbd || (0xc0 <= code && code <= 0xc1)
}

#[tactic(auto, unfolding(crate::specs::Instructions::member_kind))]
fn kind_of_member(code: u8) -> Kind
    ensures { result ≡ member_kind code }
{
    if 0xb2 <= code && code <= 0xb5 {
        Kind::Field
    } else if 0xb6 <= code && code <= 0xb8 {
        Kind::Method
    } else if code == 0xb9 {
        Kind::Interface
    } else if of_class(code) {
        Kind::Class
    } else if code == 0xc5 {
        Kind::Dims
    } else {
        Kind::Unknown
    }
}

#[tactic(auto, unfolding(crate::specs::Instructions::branch_kind))]
fn kind_of_branch(code: u8) -> Kind
    ensures { result ≡ branch_kind code }
{
    if local(code) {
        Kind::Local
    } else if code == 0x84 {
        Kind::Step
    } else if jump(code) {
        Kind::Jump
    } else if code == 0xab {
        Kind::Switch
    } else {
        kind_of_member(code)
    }
}

/// What stands behind the opcode.
#[tactic(auto, unfolding(crate::specs::Instructions::kind_of))]
pub fn kind(code: u8) -> Kind
    ensures { result ≡ kind_of code }
{
    if plain(code) {
        Kind::Plain
    } else if code == 0x10 {
        Kind::Byte
    } else if code == 0x11 {
        Kind::Short
    } else if code == 0x12 {
        Kind::Load
    } else if code == 0x13 {
        Kind::LoadWide
    } else if code == 0x14 {
        Kind::LoadLong
    } else if code == 0xbc {
        Kind::ArrayOf
    } else {
        kind_of_branch(code)
    }
}

/// Whether the number is a code of newarray.
pub fn array_code(number: u8) -> bool
    ensures { result ≡ is_array_code number }
{
    (4 <= number && number <= 5) || (8 <= number && number <= 11)
}
