//! The native methods of the library, by name.
ghost use Rattle.std.specs.Prelude.{◌≡◌};
ghost use Rattle.jc_jvm.specs.Calls.{is_native_of, native_by, native_at};

use crate::names::name_of_class;
use jc_calls::method_of;
use jc_class_out::{ClassModel, MethodModel};
use jc_heap::{has_flag, spells};
use jc_jvm::Native;

fn is_native(class: &[u16], method: &MethodModel, of: &str, name: &str, descriptor: &str) -> bool
    ensures { result ≡ is_native_of of.now name.now descriptor.now class.now method.now }
{
    spells(class, of)
        && spells(method.name.slice(), name)
        && spells(method.descriptor.slice(), descriptor)
}

/// The native method of the library that this is, by the names of its class and of itself.
pub fn native_by_name(class: &[u16], method: &MethodModel) -> Option<Native>
    ensures { result ≡ native_by class.now method.now }
{
    if is_native(class, method, "java/lang/Object", "hashCode", "()I") {
        Some(Native::HashCode)
    } else if is_native(
        class,
        method,
        "java/lang/Object",
        "className",
        "()Ljava/lang/String;",
    ) {
        Some(Native::ClassName)
    } else if is_native(
        class,
        method,
        "java/lang/Throwable",
        "className",
        "()Ljava/lang/String;",
    ) {
        Some(Native::ClassName)
    } else if is_native(class, method, "java/lang/System", "halt", "(I)V") {
        Some(Native::Halt)
    } else if is_native(class, method, "java/lang/System", "readByte", "()I") {
        Some(Native::ReadByte)
    } else if is_native(class, method, "java/io/PrintStream", "put", "(I)V") {
        Some(Native::Put)
    } else {
        None
    }
}

/// The native method of the library that the method of that number in the class of that number is.
pub fn find_native(classes: &[ClassModel], class: u64, method: u64) -> Option<Native>
    ensures { result ≡ native_at classes.now (class, method) }
{
    match method_of(classes, class, method) {
        Some(found) => {
            if has_flag(256, found.flags) {
                native_by_name(name_of_class(classes, class), found)
            } else {
                None
            }
        }
        None => None,
    }
}
