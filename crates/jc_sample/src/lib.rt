//! A small table of classes, and types in a short notation, for the tests of the crates above.
#![tactic(auto)]

use jc_rules::{Items, Place, Text, WantOfMemory};
use jc_tables::{empty_table, push_class, push_scope, push_variable};
use jc_types::{
    Access, Arg, ClassDecl, ClassId, Kind, Modifiers, Names, Owner, Primitive, Scope, ScopeId,
    ScopeOf, Table, Ty, TypePlaces, VarId, VariableDecl, WrittenTypes, array_over,
};
use std::alloc::Global;

const NOWHERE: Place = Place { file: 0, at: 0 };

// The letters of the classes, in the order of their ids: Object, Number, Integer, String, Comparable, Iterable, Collection, List,
// ArrayList, `B<T extends Number>`, a pair, `X<Z>`, `Y<T> extends X<X<? super Y<Y<T>>>>`, `F<E extends F<E>>`, M below F<M>, an
// interface D, R below the raw ArrayList, Q below ArrayList<String>, `Z<A, B extends A>` and `H<T extends X<? super Y<T>>>`.
const LETTERS: &[u8] = b"ONISKECLABPXYFMDRQZH";

// The supertypes of a class, in the notation of `push_all`.
fn supers_of(letter: u8) -> &'static [u8] {
    match letter {
        b'O' => b"",
        b'I' => b"NIK",
        b'S' => b"OSKD",
        b'C' => b"OcE",
        b'L' => b"OdC",
        b'A' => b"OeL",
        b'Y' => b"jYY-XX",
        b'M' => b"MF",
        b'R' => b"!A",
        b'Q' => b"SA",
        _ => b"O",
    }
}

// The number of a class's parameters, and the number of the first of their variables.
fn params_of(letter: u8) -> (u64, u64) {
    match letter {
        b'K' => (1, 0),
        b'E' => (1, 1),
        b'C' => (1, 2),
        b'L' => (1, 3),
        b'A' => (1, 4),
        b'B' => (1, 5),
        b'P' => (2, 6),
        b'X' => (1, 8),
        b'Y' => (1, 9),
        b'F' => (1, 10),
        b'Z' => (2, 11),
        b'H' => (1, 13),
        _ => (0, 0),
    }
}

// The bound of each variable: those of the classes, from a to n, and then `t`, `u extends Number`, `v extends t` and
// `w extends Comparable<w>`.
const BOUNDS: [&[u8]; 18] = [
    b"O", b"O", b"O", b"O", b"O", b"N", b"O", b"O", b"O", b"O", b"kF", b"O", b"l", b"nY-X", b"O",
    b"N", b"t", b"wK",
];

fn popped(stack: &mut Items<Arg>) -> Ty {
    match stack.pop() {
        Some(Arg::Exact(t)) => t,
        _ => Ty::NullTy,
    }
}

fn argument(stack: &mut Items<Arg>) -> Arg {
    match stack.pop() {
        Some(arg) => arg,
        None => Arg::Any,
    }
}

// Adds the arguments that a text spells.
fn push_all(alloc: Global, text: &[u8], stack: &mut Items<Arg>) -> Result<(), WantOfMemory> {
    let mut raw = false;
    for letter in text {
        if *letter == b'!' {
            raw = true;
        } else {
            push_letter(alloc, *letter, raw, stack)?;
            raw = false;
        }
    }
    Ok(())
}

fn push_letter(
    alloc: Global,
    letter: u8,
    raw: bool,
    stack: &mut Items<Arg>,
) -> Result<(), WantOfMemory> {
    match letter {
        b'?' => stack.push(Arg::Any),
        b'+' => {
            let upper = popped(stack);
            stack.push(Arg::Extends(upper))
        }
        b'-' => {
            let lower = popped(stack);
            stack.push(Arg::Super(lower))
        }
        b'[' => {
            let of = popped(stack);
            stack.push(Arg::Exact(array_over(alloc, of, 0)?))
        }
        b'0'..=b'6' => stack.push(Arg::Exact(simple(letter))),
        b'a'..=b'n' => stack.push(Arg::Exact(Ty::Variable(VarId((letter - b'a') as u64)))),
        b't'..=b'w' => stack.push(Arg::Exact(Ty::Variable(VarId((letter - b't') as u64 + 14)))),
        _ => push_class_type(alloc, letter, raw, stack),
    }
}

fn simple(letter: u8) -> Ty {
    match letter {
        b'1' => Ty::Prim(Primitive::Boolean),
        b'2' => Ty::Prim(Primitive::Byte),
        b'3' => Ty::Prim(Primitive::Short),
        b'4' => Ty::Prim(Primitive::Char),
        b'5' => Ty::Prim(Primitive::Int),
        b'6' => Ty::Prim(Primitive::Long),
        _ => Ty::NullTy,
    }
}

fn push_class_type(
    alloc: Global,
    letter: u8,
    raw: bool,
    stack: &mut Items<Arg>,
) -> Result<(), WantOfMemory> {
    let at = LETTERS.iter().position(|x| *x == letter).unwrap_or(0);
    let id = ClassId(at as u64);
    if raw {
        return stack.push(Arg::Exact(Ty::Raw { id }));
    }
    let mut args = Items::new(alloc);
    match params_of(letter).0 {
        0 => {}
        1 => args.push(argument(stack))?,
        _ => {
            let second = argument(stack);
            args.push(argument(stack))?;
            args.push(second)?;
        }
    }
    stack.push(Arg::Exact(Ty::Class { id, args }))
}

/// The type that a text spells. Its arguments stand before a class: `?` is a wildcard, `+` makes `? extends` of the type before
/// it and `-` makes `? super`, `[` makes an array, and `!` stands before a raw class. Capital letters are the classes of
/// `library`, small ones its variables, the digits from 1 to 6 the primitive types from `boolean` to `long`, and 0 the null type.
pub fn typed(alloc: Global, text: &[u8]) -> Result<Ty, WantOfMemory> {
    let mut stack = Items::new(alloc);
    push_all(alloc, text, &mut stack)?;
    Ok(popped(&mut stack))
}

fn one_type(alloc: Global, text: &[u8]) -> Result<WrittenTypes, WantOfMemory> {
    let mut stack = Items::new(alloc);
    push_all(alloc, text, &mut stack)?;
    let mut types = Items::new(alloc);
    let mut places = Items::new(alloc);
    for arg in stack.into_vec() {
        if let Arg::Exact(t) = arg {
            types.push(t)?;
            places.push(TypePlaces {
                first: NOWHERE,
                classes: Items::new(alloc),
            })?;
        }
    }
    Ok(WrittenTypes { types, places })
}

fn named(alloc: Global, letter: u8) -> Result<Text, WantOfMemory> {
    let mut name = String::new(alloc);
    name.push(letter as char)?;
    Text::copied(alloc, name.as_str())
}

fn class(alloc: Global, letter: u8) -> Result<ClassDecl, WantOfMemory> {
    let mut vars = Items::new(alloc);
    let (count, first) = params_of(letter);
    for i in 0..count {
        vars.push(VarId(first.wrapping_add(i)))?;
    }
    let kind = match letter {
        b'K' | b'E' | b'C' | b'L' | b'D' => Kind::Interface,
        _ => Kind::Class,
    };
    Ok(ClassDecl {
        place: NOWHERE,
        name: named(alloc, letter)?,
        binary: named(alloc, letter)?,
        package: Text::empty(),
        outer: None,
        members: Items::new(alloc),
        scope: ScopeId(0),
        modifiers: Modifiers {
            access: Access::Public,
            is_abstract: false,
            is_static: false,
            is_final: false,
            is_native: false,
            is_transient: false,
            is_volatile: false,
            says_override: false,
        },
        kind,
        vars,
        supers: one_type(alloc, supers_of(letter))?,
        methods: Items::new(alloc),
        fields: Items::new(alloc),
    })
}

fn scope(alloc: Global) -> Scope {
    Scope {
        outer: None,
        of: ScopeOf::Unit {
            own: Names::new(alloc),
            package: Text::empty(),
            demands: Items::new(alloc),
        },
    }
}

/// A table with the classes of java.lang and java.util that tests speak of, and some with bounds that are hard to meet.
pub fn library(alloc: Global) -> Result<Table, WantOfMemory> {
    let mut table = empty_table(alloc);
    push_scope(&mut table, scope(alloc))?;
    for letter in LETTERS {
        push_class(alloc, &mut table, class(alloc, *letter)?)?;
    }
    for bound in BOUNDS {
        let variable = VariableDecl {
            place: NOWHERE,
            name: Text::empty(),
            owner: Owner::Class(ClassId(0)),
            bounds: one_type(alloc, bound)?,
        };
        push_variable(&mut table, variable)?;
    }
    Ok(table)
}
