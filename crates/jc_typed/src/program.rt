//! Typed programs.
ghost use Rattle.std.specs.Prelude.{◌<◌, length, IfSome};
ghost use Rattle.std.proofs.Props.{props};

use crate::nodes::Nodes;
use jc_rules::{Items, Place, Text};
use jc_types::{ClassId, Env, FieldId, MethodId, Table, Ty};

/// The methods `String.valueOf` of each kind of value, and `String.concat` (JLS 15.18.1).
#[derive(Clone, Copy, Debug)]
pub struct Printing {
    pub of_boolean: MethodId,
    pub of_char: MethodId,
    pub of_int: MethodId,
    pub of_long: MethodId,
    pub of_object: MethodId,
    pub concat: MethodId,
}

/// The class of a primitive type (JLS 5.1.7), with its method `valueOf` and the method that gives the value.
#[derive(Clone, Copy, Debug)]
pub struct BoxedIn {
    pub class: ClassId,
    pub make: MethodId,
    pub value: MethodId,
}

#[derive(Clone, Copy, Debug)]
pub struct Boxes {
    pub boolean: BoxedIn,
    pub byte: BoxedIn,
    pub short: BoxedIn,
    pub char: BoxedIn,
    pub int: BoxedIn,
    pub long: BoxedIn,
}

/// The methods that an enhanced `for` calls: `iterator` of `Iterable`, `hasNext` and `next` of `Iterator` (JLS 14.14.2).
#[derive(Clone, Copy, Debug)]
pub struct Iterating {
    pub iterator: MethodId,
    pub has_next: MethodId,
    pub next: MethodId,
}

/// The classes of what the machine throws, and `Error`, which isn't wrapped where a class fails to initialise (JLS 12.4.2).
#[derive(Clone, Copy, Debug)]
pub struct ThrownClasses {
    pub error: ClassId,
    pub arithmetic: ClassId,
    pub array_store: ClassId,
    pub class_cast: ClassId,
    pub negative_size: ClassId,
    pub null_pointer: ClassId,
    pub out_of_bounds: ClassId,
    pub in_initialiser: ClassId,
    pub no_class: ClassId,
}

/// The native methods of the library: the identity hash, the two `className`, a byte out, a byte in, and the exit.
#[derive(Clone, Copy, Debug)]
pub struct Natives {
    pub hash_code: MethodId,
    pub class_name: MethodId,
    pub thrown_name: MethodId,
    pub put: MethodId,
    pub read_byte: MethodId,
    pub halt: MethodId,
}

/// What the language itself knows of the library. `chars` is the field of a String that has its array.
#[derive(Clone, Copy, Debug)]
pub struct Known {
    pub string: ClassId,
    pub chars: FieldId,
    pub printing: Printing,
    pub boxes: Boxes,
    pub iterating: Iterating,
    pub thrown: ThrownClasses,
    pub natives: Natives,
}

/// A local variable or parameter, in the order of their numbers. In an instance method or constructor number 0 is `this`.
#[derive(Drop)]
pub struct Local {
    pub place: Place,
    pub name: Text,
    pub ty: Ty,
    pub is_final: bool,
}

/// A body by places in the method's arena: a list with a constructor's call of another constructor or without one, a list of the
/// initialisers that follow this call (JLS 8.8.7.1, 12.5) or that a static initialiser runs (JLS 12.4.2), and the block.
#[derive(Clone, Copy, Debug)]
pub struct Body {
    pub call: u32,
    pub initialisers: u32,
    pub rest: u32,
}

/// A method. `entry_checks` tells how many of its parameters are checked where a call of an overridden method leads to it: those
/// whose erasure isn't that of the same parameter of some method that it overrides, directly or not, in its own class
/// (JLS 8.4.8.1, 15.12.4.5). An abstract or native method has no body.
#[derive(Drop)]
pub struct TypedMethod {
    pub id: MethodId,
    pub locals: Items<Local>,
    pub captured: Env,
    pub nodes: Nodes,
    pub body: Option<Body>,
    pub entry_checks: u32,
    ghost in_arena: { IfSome body (λ b. (b.call < length nodes) × (b.initialisers < length nodes) × (b.rest < length nodes)) } by { Prim.hlevel props },
}

/// The body that a class has for a method that is called (JLS 8.4.8, 15.12.4.4).
#[derive(Clone, Copy, Debug)]
pub struct Selection {
    pub method: MethodId,
    pub body: MethodId,
}

/// A typed program: `methods` has a typed method for each method of the table, `selections` a list for each class.
#[derive(Drop)]
pub struct TypedProgram {
    pub table: Table,
    pub known: Known,
    pub methods: Items<TypedMethod>,
    pub selections: Items<Items<Selection>>,
}
