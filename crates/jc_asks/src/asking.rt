//! Questions about the types of a table, and their answers in words.
use crate::calling::{created, meant, meant_of};
use crate::conversions::{constant_of, conversion_words};
use crate::having::{bridge_words, hiding_words, member_words, override_words, selected_words};
use crate::heads::{class_of_name, scope_of, table_of};
use crate::inferring::inferred;
use crate::names::Scope;
use crate::types::{read_argument, read_type};
use crate::words::{put_bounds, put_erased, put_type, yes_or_no};
use crate::{Read, Unreadable};
use jc_convert::{assignment, cast, invocation};
use jc_lub::{lub, provably_distinct};
use jc_repair::repair;
use jc_rules::{Items, Stop};
use jc_sub::{Answer, CaptureFault, below, capture, contained, glb, view};
use jc_types::{Arg, Env, Table, Ty, class_types, element, erasure, reifiable, same_type, size};
use jc_wellformed::{TypeFault, check_type, class_faults, well_formed};
use std::alloc::Global;

/// A table, its names, and the variables that its captures made.
#[derive(Drop)]
pub struct Asker {
    scope: Scope,
    table: Table,
    env: Env,
}

fn answer_word(answer: Answer) -> &'static str {
    match answer {
        Answer::Yes => "Yes",
        Answer::No => "No",
        Answer::Deep => "Deep",
    }
}

impl Asker {
    /// The table that the lines declare.
    pub fn of(alloc: Global, lines: &[&str]) -> Read<Asker> {
        let scope = scope_of(alloc, lines)?;
        let table = table_of(alloc, &scope, lines)?;
        Ok(Asker {
            scope,
            table,
            env: Env {
                bounds: Items::new(alloc),
            },
        })
    }

    /// The answer to a line.
    pub fn answer(&mut self, alloc: Global, line: &str) -> Read<String> {
        let mut words = line.split_whitespace();
        let word = words.next().unwrap_or("");
        let first = words.next().unwrap_or("");
        let second = words.next().unwrap_or("");
        match word {
            "below" => self.below(alloc, first, second),
            "contained" => self.contained(alloc, first, second),
            "capture" => self.capture(alloc, first),
            "glb" => self.glb(alloc, line),
            "erasure" => self.erasure(alloc, first),
            "wellformed" => self.well_formed(alloc, first),
            "formed" => self.formed(alloc, first),
            "faults" => self.faults(alloc, first),
            "view" => self.view(alloc, first, second),
            "size" => self.size(alloc, first),
            "same" => self.same(alloc, first, second),
            "reifiable" => self.reifiable(alloc, first),
            "element" => self.element(alloc, first),
            "inside" => self.inside(alloc, first),
            "lub" => self.lub(alloc, line),
            "repair" => self.repair(alloc, first),
            "distinct" => self.distinct(alloc, first, second),
            "assign" => self.assign(alloc, first, second, words.next()),
            "invoke" => self.invoke(alloc, first, second),
            "cast" => self.cast(alloc, first, second),
            "infer" => self.infer(alloc, line),
            "call" => self.call(alloc, line),
            "means" => self.means(alloc, line),
            "creates" => self.creates(alloc, line),
            "members" => member_words(alloc, &self.scope, &self.table, first, second),
            "overrides" => override_words(alloc, &self.scope, &self.table, first, second),
            "hides" => hiding_words(alloc, &self.scope, &self.table, first, second),
            "select" => selected_words(alloc, &self.scope, &self.table, first, second),
            "bridges" => bridge_words(alloc, &self.scope, &self.table, first),
            _ => Err(Stop::Refused(Unreadable)),
        }
    }

    fn type_of(&self, alloc: Global, word: &str) -> Read<Ty> {
        read_type(alloc, &self.scope, word)
    }

    fn argument_of(&self, alloc: Global, word: &str) -> Read<Arg> {
        read_argument(alloc, &self.scope, word)
    }

    fn below(&self, alloc: Global, first: &str, second: &str) -> Read<String> {
        let s = self.type_of(alloc, first)?;
        let t = self.type_of(alloc, second)?;
        let answer = below(alloc, &self.table, &self.env, &s, &t)?;
        Ok(String::from_str(alloc, answer_word(answer))?)
    }

    fn contained(&self, alloc: Global, first: &str, second: &str) -> Read<String> {
        let a = self.argument_of(alloc, first)?;
        let b = self.argument_of(alloc, second)?;
        let answer = contained(alloc, &self.table, &self.env, &a, &b)?;
        Ok(String::from_str(alloc, answer_word(answer))?)
    }

    /// A type in words.
    fn words_of(&self, alloc: Global, ty: &Ty) -> Read<String> {
        let mut out = String::new(alloc);
        put_type(alloc, &mut out, &self.table, ty)?;
        Ok(out)
    }

    fn capture(&mut self, alloc: Global, first: &str) -> Read<String> {
        let ty = self.type_of(alloc, first)?;
        let before = self.env.bounds.len();
        match capture(alloc, &self.table, &mut self.env, &ty) {
            Ok(captured) => {
                let mut out = self.words_of(alloc, &captured)?;
                let bounds = self.env.bounds.slice();
                let fresh = bounds.get(before..).unwrap_or(bounds);
                put_bounds(alloc, &mut out, &self.table, before as u64, fresh)?;
                Ok(out)
            }
            Err(Stop::Refused(CaptureFault::ClassesMeet { i })) => {
                Ok(format!(in alloc; "ClassesMeet {i}")?)
            }
            Err(Stop::WantOfMemory) => Err(Stop::WantOfMemory),
        }
    }

    /// The types that stand behind a line's first word.
    fn types_of(&self, alloc: Global, line: &str) -> Read<Items<Ty>> {
        let mut types = Items::new(alloc);
        for (i, word) in line.split_whitespace().enumerate() {
            if i > 0 {
                types.push(self.type_of(alloc, word)?)?;
            }
        }
        Ok(types)
    }

    fn lub(&self, alloc: Global, line: &str) -> Read<String> {
        let types = self.types_of(alloc, line)?;
        let bound = lub(alloc, &self.table, &self.env, types.slice())?;
        self.words_of(alloc, &bound)
    }

    fn repair(&self, alloc: Global, first: &str) -> Read<String> {
        let ty = self.type_of(alloc, first)?;
        let repaired = repair(alloc, &self.table, &self.env, &ty)?;
        self.words_of(alloc, &repaired)
    }

    fn distinct(&self, alloc: Global, first: &str, second: &str) -> Read<String> {
        let s = self.type_of(alloc, first)?;
        let t = self.type_of(alloc, second)?;
        let holds = provably_distinct(alloc, &self.table, &self.env, &s, &t)?;
        Ok(String::from_str(alloc, yes_or_no(holds))?)
    }

    fn assign(
        &self,
        alloc: Global,
        first: &str,
        second: &str,
        constant: Option<&str>,
    ) -> Read<String> {
        let s = self.type_of(alloc, first)?;
        let t = self.type_of(alloc, second)?;
        let constant = constant_of(constant)?;
        let found = assignment(alloc, &self.table, &self.env, &s, constant.as_ref(), &t)?;
        conversion_words(alloc, &self.table, found)
    }

    fn invoke(&self, alloc: Global, first: &str, second: &str) -> Read<String> {
        let s = self.type_of(alloc, first)?;
        let t = self.type_of(alloc, second)?;
        let found = invocation(alloc, &self.table, &self.env, &s, &t)?;
        conversion_words(alloc, &self.table, found)
    }

    fn cast(&self, alloc: Global, first: &str, second: &str) -> Read<String> {
        let s = self.type_of(alloc, first)?;
        let t = self.type_of(alloc, second)?;
        let found = cast(alloc, &self.table, &self.env, &s, &t)?;
        conversion_words(alloc, &self.table, found)
    }

    fn infer(&self, alloc: Global, line: &str) -> Read<String> {
        match line.split_once(' ') {
            Some((_, call)) => inferred(alloc, &self.scope, &self.table, &self.env, call),
            None => Err(Stop::Refused(Unreadable)),
        }
    }

    fn call(&mut self, alloc: Global, line: &str) -> Read<String> {
        match line.split_once(' ') {
            Some((_, call)) => meant(alloc, &self.scope, &self.table, &mut self.env, call),
            None => Err(Stop::Refused(Unreadable)),
        }
    }

    fn means(&mut self, alloc: Global, line: &str) -> Read<String> {
        match line.split_once(' ') {
            Some((_, call)) => meant_of(alloc, &self.scope, &self.table, &mut self.env, call),
            None => Err(Stop::Refused(Unreadable)),
        }
    }

    fn creates(&mut self, alloc: Global, line: &str) -> Read<String> {
        match line.split_once(' ') {
            Some((_, call)) => created(alloc, &self.scope, &self.table, &mut self.env, call),
            None => Err(Stop::Refused(Unreadable)),
        }
    }

    fn glb(&self, alloc: Global, line: &str) -> Read<String> {
        let types = self.types_of(alloc, line)?;
        match glb(alloc, &self.table, types.slice()) {
            Ok(bound) => self.words_of(alloc, &bound),
            Err(Stop::Refused(CaptureFault::ClassesMeet { i })) => {
                Ok(format!(in alloc; "ClassesMeet {i}")?)
            }
            Err(Stop::WantOfMemory) => Err(Stop::WantOfMemory),
        }
    }

    fn erasure(&self, alloc: Global, first: &str) -> Read<String> {
        let ty = self.type_of(alloc, first)?;
        let mut out = String::new(alloc);
        let erased = erasure(&self.table, &self.env, &ty);
        put_erased(alloc, &mut out, &self.table, erased)?;
        Ok(out)
    }

    fn well_formed(&self, alloc: Global, first: &str) -> Read<String> {
        let ty = self.type_of(alloc, first)?;
        match check_type(alloc, &self.table, &self.env, &ty) {
            Ok(()) => Ok(String::from_str(alloc, "Yes")?),
            Err(Stop::Refused(fault)) => fault_words(alloc, fault),
            Err(Stop::WantOfMemory) => Err(Stop::WantOfMemory),
        }
    }

    fn formed(&self, alloc: Global, first: &str) -> Read<String> {
        let ty = self.type_of(alloc, first)?;
        let answer = well_formed(alloc, &self.table, &self.env, &ty)?;
        Ok(String::from_str(alloc, answer_word(answer))?)
    }

    fn faults(&self, alloc: Global, first: &str) -> Read<String> {
        let ty = self.type_of(alloc, first)?;
        let faults = class_faults(alloc, &self.table, &self.env, &ty)?;
        let mut out = String::new(alloc);
        for (n, fault) in faults.slice().iter().enumerate() {
            if n > 0 {
                out.push_str(", ")?;
            }
            let words = fault_words(alloc, *fault)?;
            out.push_str(words.as_str())?;
        }
        Ok(out)
    }

    fn view(&self, alloc: Global, first: &str, second: &str) -> Read<String> {
        let ty = self.type_of(alloc, first)?;
        let class = class_of_name(&self.scope, second)?;
        match view(alloc, &self.table, class, &ty)? {
            Some(found) => self.words_of(alloc, &found),
            None => Ok(String::from_str(alloc, "none")?),
        }
    }

    fn size(&self, alloc: Global, first: &str) -> Read<String> {
        let ty = self.type_of(alloc, first)?;
        let count = size(&ty);
        Ok(format!(in alloc; "{count}")?)
    }

    fn same(&self, alloc: Global, first: &str, second: &str) -> Read<String> {
        let s = self.type_of(alloc, first)?;
        let t = self.type_of(alloc, second)?;
        Ok(String::from_str(alloc, yes_or_no(same_type(&s, &t)))?)
    }

    fn reifiable(&self, alloc: Global, first: &str) -> Read<String> {
        let ty = self.type_of(alloc, first)?;
        Ok(String::from_str(alloc, yes_or_no(reifiable(&self.table, &ty)))?)
    }

    fn element(&self, alloc: Global, first: &str) -> Read<String> {
        let ty = self.type_of(alloc, first)?;
        match element(alloc, &ty)? {
            Some(found) => self.words_of(alloc, &found),
            None => Ok(String::from_str(alloc, "none")?),
        }
    }

    fn inside(&self, alloc: Global, first: &str) -> Read<String> {
        let ty = self.type_of(alloc, first)?;
        let types = class_types(alloc, &ty)?;
        let count = types.len();
        Ok(format!(in alloc; "{count}")?)
    }
}

/// The number of the rule that a fault breaks, and the number of the argument if it is one's.
fn fault_words(alloc: Global, fault: TypeFault) -> Read<String> {
    Ok(match fault {
        TypeFault::Count => format!(in alloc; "401")?,
        TypeFault::Bound { i } => format!(in alloc; "402 {i}")?,
        TypeFault::SuperBound { i } => format!(in alloc; "403 {i}")?,
        TypeFault::PrimitiveArgument { i } => format!(in alloc; "404 {i}")?,
        TypeFault::ClassesMeet { i } => format!(in alloc; "405 {i}")?,
        TypeFault::Deep => format!(in alloc; "406")?,
    })
}
