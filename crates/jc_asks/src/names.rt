//! The names of a table's classes and variables, and the labels of its methods.
use jc_rules::{Items, WantOfMemory};
use jc_types::{ClassId, MethodId};
use std::alloc::Global;
use std::collections::BTreeMap;

/// What a name of a table stands for, by its number.
#[derive(Clone, Copy, Debug, PartialEq, Eq)]
pub enum Named {
    Class { number: u64, generic: bool },
    Variable { number: u64 },
    Method { number: u64 },
}

/// The names of a table's classes and variables, the labels of its methods, and the methods of each class.
#[derive(Drop)]
pub struct Scope {
    named: BTreeMap<String, Named>,
    classes: u64,
    variables: u64,
    labels: Vec<String>,
    members: Vec<Items<MethodId>>,
}

impl Scope {
    /// The class `Object` alone.
    pub fn new(alloc: Global) -> Result<Scope, WantOfMemory> {
        let mut scope = Scope {
            named: BTreeMap::new(alloc),
            classes: 0,
            variables: 0,
            labels: Vec::new(alloc),
            members: Vec::new(alloc),
        };
        scope.add_class(alloc, "Object", false)?;
        Ok(scope)
    }

    pub fn find(&self, name: &str) -> Option<Named> {
        self.named.get(name).copied()
    }

    pub fn add_class(
        &mut self,
        alloc: Global,
        name: &str,
        generic: bool,
    ) -> Result<(), WantOfMemory> {
        let number = self.classes;
        self.classes = number.wrapping_add(1);
        let name = String::from_str(alloc, name)?;
        self.named.insert(name, Named::Class { number, generic })?;
        self.members.push(Items::new(alloc))?;
        Ok(())
    }

    pub fn add_variable(&mut self, alloc: Global, name: &str) -> Result<(), WantOfMemory> {
        let number = self.variables;
        self.variables = number.wrapping_add(1);
        let name = String::from_str(alloc, name)?;
        self.named.insert(name, Named::Variable { number })?;
        Ok(())
    }

    /// The next method, which belongs to a class that is there.
    pub fn add_method(
        &mut self,
        alloc: Global,
        label: &str,
        class: ClassId,
    ) -> Result<(), WantOfMemory> {
        let number = self.labels.len() as u64;
        if let Some(members) = self.members.get_mut(class.0 as usize) {
            members.push(MethodId(number))?;
        }
        let name = String::from_str(alloc, label)?;
        self.named.insert(name, Named::Method { number })?;
        self.add_label(alloc, label)
    }

    /// The next method, which no question names.
    pub fn add_label(&mut self, alloc: Global, label: &str) -> Result<(), WantOfMemory> {
        self.labels.push(String::from_str(alloc, label)?)?;
        Ok(())
    }

    /// The label of a method.
    pub fn label(&self, method: MethodId) -> &str {
        match self.labels.get(method.0 as usize) {
            Some(label) => label.as_str(),
            None => "NoMethod",
        }
    }

    /// The methods of a class, in their order.
    pub fn members_of(
        &self,
        alloc: Global,
        class: ClassId,
    ) -> Result<Items<MethodId>, WantOfMemory> {
        let mut out = Items::new(alloc);
        if let Some(members) = self.members.get(class.0 as usize) {
            for member in members.slice() {
                out.push(*member)?;
            }
        }
        Ok(out)
    }
}
