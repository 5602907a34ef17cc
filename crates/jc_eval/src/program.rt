//! The lines of a program: its classes, fields and methods, the bodies that classes select, the known parts of the library, the nodes
//! of each body, and what is run.
ghost use Rattle.std.specs.Prelude.{◌<◌, IfOk, IfSome};

use crate::known::known;
use crate::nodes::push;
use crate::types::{type_of, types_of};
use crate::words::{number, number_of, place, word, words};
use crate::{Read, Unreadable};
use jc_rules::{Items, Place, Stop, Text, WantOfMemory};
use jc_typed::{Body, Local, Nodes, Selection, TypedMethod, TypedProgram};
use jc_types::{
    Access, Bounds, ClassDecl, ClassId, Env, FieldDecl, FieldId, FieldValue, Kind, MethodDecl,
    MethodId, MethodKind, Modifiers, Names, Owner, ScopeId, Table, Ty, TypePlaces, VarId,
    VariableDecl, Written, WrittenTypes, copy_types,
};
use std::alloc::Global;
use std::mem;

const NOWHERE: Place = Place { file: 1, at: 0 };

/// What is run: a method with that many units on an input.
#[derive(Drop)]
pub struct Run {
    pub method: MethodId,
    pub is_main: bool,
    pub units: u64,
    pub input: String,
}

/// The parts of a program that were read so far, and those of the body that is being read.
#[derive(Drop)]
pub struct Reader {
    alloc: Global,
    classes: Vec<ClassDecl>,
    methods: Vec<MethodDecl>,
    fields: Vec<FieldDecl>,
    variables: Vec<VariableDecl>,
    bodies: Vec<TypedMethod>,
    selections: Vec<Vec<Selection>>,
    known: Vec<u64>,
    run: Run,
    head: String,
    nodes: Nodes,
    so_far: Table,
}

fn modifiers(is_static: bool) -> Modifiers {
    Modifiers {
        access: Access::Public,
        is_abstract: false,
        is_static,
        is_final: false,
        is_native: false,
        is_transient: false,
        is_volatile: false,
        says_override: false,
    }
}

fn written_types(alloc: Global, types: Items<Ty>) -> WrittenTypes {
    WrittenTypes {
        types,
        places: Items::new(alloc),
    }
}

fn written(alloc: Global, word: &str) -> Result<Written, WantOfMemory> {
    Ok(Written {
        ty: type_of(alloc, word)?,
        places: TypePlaces {
            first: NOWHERE,
            classes: Items::new(alloc),
        },
    })
}

fn text(alloc: Global, word: &str) -> Result<Text, WantOfMemory> {
    Text::copied(alloc, word)
}

// The variables from a number on.
fn variables(alloc: Global, words: &[&str], at: usize) -> Result<Items<VarId>, WantOfMemory> {
    let first = number(words, at);
    let mut out = Items::new(alloc);
    for i in 0..number(words, at.saturating_add(1)) {
        out.push(VarId(first.wrapping_add(i)))?;
    }
    Ok(out)
}

fn numbers(alloc: Global, words: &[&str]) -> Result<Vec<u64>, WantOfMemory> {
    let mut out = Vec::new(alloc);
    for i in 1..words.len() {
        out.push(number_of(words[i]))?;
    }
    Ok(out)
}

fn no_table(alloc: Global, variables: Items<VariableDecl>) -> Table {
    Table {
        classes: Items::new(alloc),
        methods: Items::new(alloc),
        fields: Items::new(alloc),
        variables,
        scopes: Items::new(alloc),
        uses: Items::new(alloc),
        index: Names::new(alloc),
    }
}

fn no_run(alloc: Global) -> Run {
    Run {
        method: MethodId(0),
        is_main: false,
        units: 0,
        input: String::new(alloc),
    }
}

fn method_kind(word: &str) -> MethodKind {
    match word {
        "c" => MethodKind::Constructor,
        "i" => MethodKind::StaticInitialiser,
        _ => MethodKind::Method,
    }
}

// Variables of these types.
fn locals(alloc: Global, types: Items<Ty>) -> Result<Items<Local>, WantOfMemory> {
    let mut out = Items::new(alloc);
    for ty in types.into_vec() {
        out.push(Local {
            place: NOWHERE,
            name: text(alloc, "v")?,
            ty,
            is_final: false,
        })?;
    }
    Ok(out)
}

fn captured(alloc: Global, count: u64) -> Result<Env, WantOfMemory> {
    let mut bounds = Items::new(alloc);
    for _ in 0..count {
        bounds.push(Bounds {
            uppers: Items::new(alloc),
            lower: None,
        })?;
    }
    Ok(Env { bounds })
}

// The body of a line `body LOCALS CAPTURED CALL INITIALISERS REST`, of which there are `count` nodes; none of a shorter line.
fn body_of(words: &[&str], count: usize) -> Read<Option<Body>>
    ensures { IfOk result (λ body. IfSome body (λ b. (b.call < count) × (b.initialisers < count) × (b.rest < count))) }
{
    if words.len() <= 3 {
        return Ok(None);
    }
    Ok(Some(Body {
        call: place(words, 3, count)?,
        initialisers: place(words, 4, count)?,
        rest: place(words, 5, count)?,
    }))
}

// A method whose nodes were read, of which its head line tells the places.
fn typed_method(alloc: Global, id: MethodId, head: &[&str], nodes: Nodes) -> Read<TypedMethod> {
    let locals = locals(alloc, types_of(alloc, word(head, 1))?)?;
    let captured = captured(alloc, number(head, 2))?;
    let body = body_of(head, nodes.len())?;
    Ok(TypedMethod {
        id,
        locals,
        captured,
        nodes,
        body,
        entry_checks: 0,
    })
}

impl Reader {
    pub fn new(alloc: Global) -> Reader {
        Reader {
            alloc,
            classes: Vec::new(alloc),
            methods: Vec::new(alloc),
            fields: Vec::new(alloc),
            variables: Vec::new(alloc),
            bodies: Vec::new(alloc),
            selections: Vec::new(alloc),
            known: Vec::new(alloc),
            run: no_run(alloc),
            head: String::new(alloc),
            nodes: Nodes::new(alloc),
            so_far: no_table(alloc, Items::new(alloc)),
        }
    }

    /// Reads the lines of a program.
    pub fn read(&mut self, text: &str) -> Read<()> {
        for line in text.lines() {
            let words = words(self.alloc, line, ' ')?;
            if !words.is_empty() {
                self.line(line, words.as_slice())?;
            }
        }
        Ok(())
    }

    fn line(&mut self, line: &str, words: &[&str]) -> Read<()> {
        match word(words, 0) {
            "class" => Ok(self.class(words)?),
            "variable-of" => Ok(self.variable(words)?),
            "field-of" => self.field(words),
            "method-of" => self.method(words),
            "select" => self.select(words),
            "known" => {
                self.known = numbers(self.alloc, words)?;
                self.so_far = self.variables_so_far()?;
                Ok(())
            }
            "body" => {
                self.head = String::from_str(self.alloc, line)?;
                Ok(())
            }
            "end" => self.body(),
            "run" => self.run_line(words),
            _ => {
                let _place = push(self.alloc, &self.so_far, &mut self.nodes, words)?;
                Ok(())
            }
        }
    }

    // run METHOD UNITS main|static [INPUT]
    fn run_line(&mut self, words: &[&str]) -> Read<()> {
        self.run = Run {
            method: MethodId(number(words, 1)),
            units: number(words, 2),
            is_main: word(words, 3) == "main",
            input: String::from_str(self.alloc, word(words, 4))?,
        };
        Ok(())
    }

    // class BINARY c|i SUPERS FIRST-VARIABLE COUNT
    fn class(&mut self, words: &[&str]) -> Result<(), WantOfMemory> {
        let alloc = self.alloc;
        self.classes.push(ClassDecl {
            place: NOWHERE,
            name: text(alloc, word(words, 1))?,
            binary: text(alloc, word(words, 1))?,
            package: text(alloc, "")?,
            outer: None,
            members: Items::new(alloc),
            scope: ScopeId(0),
            modifiers: modifiers(false),
            kind: if word(words, 2) == "i" {
                Kind::Interface
            } else {
                Kind::Class
            },
            vars: variables(alloc, words, 4)?,
            supers: written_types(alloc, types_of(alloc, word(words, 3))?),
            methods: Items::new(alloc),
            fields: Items::new(alloc),
        })?;
        self.selections.push(Vec::new(alloc))?;
        Ok(())
    }

    // variable-of c|m OWNER BOUNDS
    fn variable(&mut self, words: &[&str]) -> Result<(), WantOfMemory> {
        let alloc = self.alloc;
        let owner = if word(words, 1) == "c" {
            Owner::Class(ClassId(number(words, 2)))
        } else {
            Owner::Method(MethodId(number(words, 2)))
        };
        self.variables.push(VariableDecl {
            place: NOWHERE,
            name: text(alloc, "T")?,
            owner,
            bounds: written_types(alloc, types_of(alloc, word(words, 3))?),
        })?;
        Ok(())
    }

    // field-of CLASS NAME s|i TYPE
    fn field(&mut self, words: &[&str]) -> Read<()> {
        let alloc = self.alloc;
        let class = number(words, 1);
        let id = FieldId(self.fields.len() as u64);
        self.fields.push(FieldDecl {
            place: NOWHERE,
            class: ClassId(class),
            name: text(alloc, word(words, 2))?,
            modifiers: modifiers(word(words, 3) == "s"),
            ty: written(alloc, word(words, 4))?,
            value: FieldValue::Unknown,
        })?;
        match self.classes.get_mut(class as usize) {
            Some(of) => Ok(of.fields.push(id)?),
            None => Err(Stop::Refused(Unreadable)),
        }
    }

    // method-of CLASS NAME m|c|i s|i PARAMS RESULT FIRST-VARIABLE COUNT
    fn method(&mut self, words: &[&str]) -> Read<()> {
        let alloc = self.alloc;
        let class = number(words, 1);
        let id = MethodId(self.methods.len() as u64);
        let result = match word(words, 6) {
            "." => None,
            ty => Some(written(alloc, ty)?),
        };
        self.methods.push(MethodDecl {
            place: NOWHERE,
            class: ClassId(class),
            name: text(alloc, word(words, 2))?,
            kind: method_kind(word(words, 3)),
            modifiers: modifiers(word(words, 4) == "s"),
            scope: ScopeId(0),
            vars: variables(alloc, words, 7)?,
            params: written_types(alloc, types_of(alloc, word(words, 5))?),
            param_names: Items::new(alloc),
            result,
            thrown: written_types(alloc, Items::new(alloc)),
            is_variable_arity: false,
            has_body: true,
        })?;
        match self.classes.get_mut(class as usize) {
            Some(of) => Ok(of.methods.push(id)?),
            None => Err(Stop::Refused(Unreadable)),
        }
    }

    // select CLASS METHOD BODY
    fn select(&mut self, words: &[&str]) -> Read<()> {
        let selection = Selection {
            method: MethodId(number(words, 2)),
            body: MethodId(number(words, 3)),
        };
        match self.selections.get_mut(number(words, 1) as usize) {
            Some(of) => Ok(of.push(selection)?),
            None => Err(Stop::Refused(Unreadable)),
        }
    }

    // The end of a body, whose nodes were read behind its head.
    fn body(&mut self) -> Read<()> {
        let none = Nodes::new(self.alloc);
        let nodes = mem::replace(&mut self.nodes, none);
        let head = words(self.alloc, self.head.as_str(), ' ')?;
        let id = MethodId(self.bodies.len() as u64);
        let method = typed_method(self.alloc, id, head.as_slice(), nodes)?;
        self.bodies.push(method)?;
        Ok(())
    }

    // A table with the variables alone, over which types are erased.
    fn variables_so_far(&self) -> Result<Table, WantOfMemory> {
        let alloc = self.alloc;
        let mut variables = Items::new(alloc);
        for variable in &self.variables {
            variables.push(VariableDecl {
                place: NOWHERE,
                name: text(alloc, "T")?,
                owner: variable.owner,
                bounds: written_types(alloc, copy_types(alloc, variable.bounds.types.slice())?),
            })?;
        }
        Ok(no_table(alloc, variables))
    }

    /// What was read: the program, and what of it is run.
    pub fn finish(self) -> Result<(TypedProgram, Run), WantOfMemory> {
        let alloc = self.alloc;
        let mut selections = Items::new(alloc);
        for list in self.selections {
            selections.push(Items::of(list))?;
        }
        let mut table = no_table(alloc, Items::of(self.variables));
        table.classes = Items::of(self.classes);
        table.methods = Items::of(self.methods);
        table.fields = Items::of(self.fields);
        let program = TypedProgram {
            table,
            known: known(self.known.as_slice()),
            methods: Items::of(self.bodies),
            selections,
        };
        Ok((program, self.run))
    }
}
