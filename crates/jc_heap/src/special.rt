//! The classes that the machine itself asks for, by name.
ghost use Rattle.std.specs.Prelude.{◌≡◌};
ghost use Rattle.jc_jvm.specs.Classes.{class_named as class_by_name};
ghost use Rattle.jc_heap.specs.Special.{AreSpecial};

use crate::names::class_spelled;
use jc_class_out::ClassModel;

/// Object, the classes of the exceptions that the machine makes, and what handlers and initialisers ask for, where the classes have them.
#[derive(Clone, Copy, Debug)]
pub struct SpecialClasses {
    pub object: Option<u64>,
    pub throwable: Option<u64>,
    pub error: Option<u64>,
    pub arithmetic: Option<u64>,
    pub array_index: Option<u64>,
    pub array_store: Option<u64>,
    pub class_cast: Option<u64>,
    pub in_initializer: Option<u64>,
    pub negative_size: Option<u64>,
    pub no_class_def: Option<u64>,
    pub null_pointer: Option<u64>,
}

fn number_spelled(classes: &[ClassModel], name: &str) -> Option<u64>
    ensures { result ≡ class_by_name classes.now name.now }
{
    match class_spelled(classes, name) {
        Some(class) => Some(class as u64),
        None => None,
    }
}

/// Looks these classes up.
pub fn find_special(classes: &[ClassModel]) -> SpecialClasses
    ensures { AreSpecial classes.now result }
{
    SpecialClasses {
        object: number_spelled(classes, "java/lang/Object"),
        throwable: number_spelled(classes, "java/lang/Throwable"),
        error: number_spelled(classes, "java/lang/Error"),
        arithmetic: number_spelled(classes, "java/lang/ArithmeticException"),
        array_index: number_spelled(classes, "java/lang/ArrayIndexOutOfBoundsException"),
        array_store: number_spelled(classes, "java/lang/ArrayStoreException"),
        class_cast: number_spelled(classes, "java/lang/ClassCastException"),
        in_initializer: number_spelled(classes, "java/lang/ExceptionInInitializerError"),
        negative_size: number_spelled(classes, "java/lang/NegativeArraySizeException"),
        no_class_def: number_spelled(classes, "java/lang/NoClassDefFoundError"),
        null_pointer: number_spelled(classes, "java/lang/NullPointerException"),
    }
}
