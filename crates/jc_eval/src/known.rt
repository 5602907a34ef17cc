//! The classes and methods of the library that a run knows, by their numbers in order.
use jc_typed::{BoxedIn, Boxes, Iterating, Known, Natives, Printing, ThrownClasses};
use jc_types::{ClassId, FieldId, MethodId};

fn number(numbers: &[u64], at: usize) -> u64 {
    match numbers.get(at) {
        Some(n) => *n,
        None => 0,
    }
}

fn method(numbers: &[u64], at: usize) -> MethodId {
    MethodId(number(numbers, at))
}

fn class(numbers: &[u64], at: usize) -> ClassId {
    ClassId(number(numbers, at))
}

fn boxed(numbers: &[u64], at: usize) -> BoxedIn {
    BoxedIn {
        class: class(numbers, at),
        make: method(numbers, at.saturating_add(1)),
        value: method(numbers, at.saturating_add(2)),
    }
}

fn printing(numbers: &[u64]) -> Printing {
    Printing {
        of_boolean: method(numbers, 2),
        of_char: method(numbers, 3),
        of_int: method(numbers, 4),
        of_long: method(numbers, 5),
        of_object: method(numbers, 6),
        concat: method(numbers, 7),
    }
}

fn boxes(numbers: &[u64]) -> Boxes {
    Boxes {
        boolean: boxed(numbers, 8),
        byte: boxed(numbers, 11),
        short: boxed(numbers, 14),
        char: boxed(numbers, 17),
        int: boxed(numbers, 20),
        long: boxed(numbers, 23),
    }
}

fn thrown(numbers: &[u64]) -> ThrownClasses {
    ThrownClasses {
        error: class(numbers, 29),
        arithmetic: class(numbers, 30),
        array_store: class(numbers, 31),
        class_cast: class(numbers, 32),
        negative_size: class(numbers, 33),
        null_pointer: class(numbers, 34),
        out_of_bounds: class(numbers, 35),
        in_initialiser: class(numbers, 36),
        no_class: class(numbers, 37),
    }
}

/// What the numbers of a line `known` stand for.
pub fn known(numbers: &[u64]) -> Known {
    Known {
        string: class(numbers, 0),
        chars: FieldId(number(numbers, 1)),
        printing: printing(numbers),
        boxes: boxes(numbers),
        iterating: Iterating {
            iterator: method(numbers, 26),
            has_next: method(numbers, 27),
            next: method(numbers, 28),
        },
        thrown: thrown(numbers),
        natives: Natives {
            hash_code: method(numbers, 38),
            class_name: method(numbers, 39),
            thrown_name: method(numbers, 40),
            put: method(numbers, 41),
            read_byte: method(numbers, 42),
            halt: method(numbers, 43),
        },
    }
}
