//! Types from words. They are read from left to right, and what is open stands on a stack.
use crate::names::{Named, Scope};
use crate::{Read, Unreadable};
use jc_rules::{Items, Stop};
use jc_types::{Arg, CaptureId, ClassId, Primitive, Ty, VarId, array_over};
use std::alloc::Global;
use std::mem;

/// How an argument begins.
#[derive(Clone, Copy, Debug, PartialEq, Eq)]
enum Mark {
    Exact,
    Any,
    Extends,
    Super,
}

/// What isn't closed yet: a class's arguments, behind the mark that stands before the class, or an intersection's parts.
#[derive(Drop)]
enum Open {
    Arguments {
        before: Mark,
        class: ClassId,
        args: Items<Arg>,
    },
    Parts {
        before: Mark,
        parts: Items<Ty>,
    },
}

/// A type under way: what is open, the last name's letters, the mark of the argument and the type that ends here.
#[derive(Drop)]
struct Reader<'a> {
    scope: &'a Scope,
    open: Vec<Open>,
    name: String,
    mark: Mark,
    last: Option<Ty>,
}

/// The argument that a word spells.
pub fn read_argument(alloc: Global, scope: &Scope, word: &str) -> Read<Arg> {
    let mut reader = Reader {
        scope,
        open: Vec::new(alloc),
        name: String::new(alloc),
        mark: Mark::Exact,
        last: None,
    };
    for c in word.chars() {
        reader.take(alloc, c)?;
    }
    reader.end_name(alloc)?;
    if !reader.open.is_empty() {
        return Err(Stop::Refused(Unreadable));
    }
    reader.argument()
}

/// The type that a word spells.
pub fn read_type(alloc: Global, scope: &Scope, word: &str) -> Read<Ty> {
    match read_argument(alloc, scope, word)? {
        Arg::Exact(ty) => Ok(ty),
        _ => Err(Stop::Refused(Unreadable)),
    }
}

/// The bounds that a word spells: the parts of an intersection, and else one.
pub fn read_bounds(alloc: Global, scope: &Scope, word: &str) -> Read<Items<Ty>> {
    match read_type(alloc, scope, word)? {
        Ty::Meet { parts } => Ok(parts),
        ty => {
            let mut bounds = Items::new(alloc);
            bounds.push(ty)?;
            Ok(bounds)
        }
    }
}

impl<'a> Reader<'a> {
    fn take(&mut self, alloc: Global, c: char) -> Read<()> {
        match c {
            '<' => self.open_arguments(alloc),
            '{' => self.open_parts(alloc),
            '?' => self.set_mark(Mark::Any),
            '+' => self.set_mark(Mark::Extends),
            '-' => self.set_mark(Mark::Super),
            '[' => Ok(()),
            ']' => self.one_dimension(alloc),
            ',' => self.end_argument(alloc),
            '>' => self.close_arguments(alloc),
            '&' => self.end_part(alloc),
            '}' => self.close_parts(alloc),
            _ => {
                self.name.push(c)?;
                Ok(())
            }
        }
    }

    fn set_mark(&mut self, mark: Mark) -> Read<()> {
        self.mark = mark;
        Ok(())
    }

    fn open_arguments(&mut self, alloc: Global) -> Read<()> {
        match self.scope.find(self.name.as_str()) {
            Some(Named::Class { number, .. }) => {
                self.open.push(Open::Arguments {
                    before: self.mark,
                    class: ClassId(number),
                    args: Items::new(alloc),
                })?;
                self.name.clear();
                self.mark = Mark::Exact;
                Ok(())
            }
            _ => Err(Stop::Refused(Unreadable)),
        }
    }

    fn open_parts(&mut self, alloc: Global) -> Read<()> {
        self.open.push(Open::Parts {
            before: self.mark,
            parts: Items::new(alloc),
        })?;
        self.mark = Mark::Exact;
        Ok(())
    }

    /// A name that ends here is a type.
    fn end_name(&mut self, alloc: Global) -> Read<()> {
        if !self.name.is_empty() {
            let name = mem::replace(&mut self.name, String::new(alloc));
            self.last = Some(named_type(alloc, self.scope, name.as_str())?);
        }
        Ok(())
    }

    fn one_dimension(&mut self, alloc: Global) -> Read<()> {
        self.end_name(alloc)?;
        match self.last.take() {
            Some(ty) => {
                self.last = Some(array_over(alloc, ty, 0)?);
                Ok(())
            }
            None => Err(Stop::Refused(Unreadable)),
        }
    }

    /// The argument that ends here.
    fn argument(&mut self) -> Read<Arg> {
        let mark = mem::replace(&mut self.mark, Mark::Exact);
        match (mark, self.last.take()) {
            (Mark::Any, None) => Ok(Arg::Any),
            (Mark::Exact, Some(ty)) => Ok(Arg::Exact(ty)),
            (Mark::Extends, Some(ty)) => Ok(Arg::Extends(ty)),
            (Mark::Super, Some(ty)) => Ok(Arg::Super(ty)),
            _ => Err(Stop::Refused(Unreadable)),
        }
    }

    fn end_argument(&mut self, alloc: Global) -> Read<()> {
        self.end_name(alloc)?;
        let arg = self.argument()?;
        match self.open.last_mut() {
            Some(Open::Arguments { args, .. }) => {
                args.push(arg)?;
                Ok(())
            }
            _ => Err(Stop::Refused(Unreadable)),
        }
    }

    fn close_arguments(&mut self, alloc: Global) -> Read<()> {
        self.end_name(alloc)?;
        if self.last.is_some() || self.mark != Mark::Exact {
            self.end_argument(alloc)?;
        }
        match self.open.pop() {
            Some(
                Open::Arguments {
                    before,
                    class,
                    args,
                },
            ) => {
                self.mark = before;
                self.last = Some(Ty::Class { id: class, args });
                Ok(())
            }
            _ => Err(Stop::Refused(Unreadable)),
        }
    }

    fn end_part(&mut self, alloc: Global) -> Read<()> {
        self.end_name(alloc)?;
        match (self.last.take(), self.open.last_mut()) {
            (Some(ty), Some(Open::Parts { parts, .. })) => {
                parts.push(ty)?;
                Ok(())
            }
            _ => Err(Stop::Refused(Unreadable)),
        }
    }

    fn close_parts(&mut self, alloc: Global) -> Read<()> {
        self.end_part(alloc)?;
        match self.open.pop() {
            Some(Open::Parts { before, parts }) => {
                self.mark = before;
                self.last = Some(Ty::Meet { parts });
                Ok(())
            }
            _ => Err(Stop::Refused(Unreadable)),
        }
    }
}

/// What a name stands for. A generic class without arguments is raw.
fn named_type(alloc: Global, scope: &Scope, name: &str) -> Read<Ty> {
    if let Some(digits) = name.strip_prefix('#') {
        return match digits.parse::<u64>() {
            Ok(number) => Ok(Ty::Captured(CaptureId(number))),
            Err(_) => Err(Stop::Refused(Unreadable)),
        };
    }
    if let Some(word) = primitive(name) {
        return Ok(Ty::Prim(word));
    }
    match scope.find(name) {
        Some(Named::Class { number, generic }) => Ok(class_type(alloc, number, generic)),
        Some(Named::Variable { number }) => Ok(Ty::Variable(VarId(number))),
        Some(Named::Method { .. }) => Err(Stop::Refused(Unreadable)),
        None => {
            if name == "null" {
                Ok(Ty::NullTy)
            } else {
                Err(Stop::Refused(Unreadable))
            }
        }
    }
}

fn class_type(alloc: Global, number: u64, generic: bool) -> Ty {
    let id = ClassId(number);
    if generic {
        Ty::Raw { id }
    } else {
        Ty::Class {
            id,
            args: Items::new(alloc),
        }
    }
}

fn primitive(name: &str) -> Option<Primitive> {
    match name {
        "boolean" => Some(Primitive::Boolean),
        "byte" => Some(Primitive::Byte),
        "short" => Some(Primitive::Short),
        "char" => Some(Primitive::Char),
        "int" => Some(Primitive::Int),
        "long" => Some(Primitive::Long),
        _ => None,
    }
}
