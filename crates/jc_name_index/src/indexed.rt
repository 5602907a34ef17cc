//! What the heads of a program declare, found by name.
ghost use Rattle.std.specs.Prelude.{◌≡◌, not};
ghost use Rattle.jc_types.specs.Names.{named};
ghost use Rattle.jc_declares.specs.Heads.{declared_of, types_of_unit, types_of_package, class_variables, method_variables};
ghost use Rattle.jc_declares.specs.Writing.{is_empty};
ghost use Rattle.jc_name_index.specs.Index.{IsIndex};

use crate::index::Index;
use jc_declares::Heads;

/// Heads of declarations, and their index.
#[derive(Clone, Copy)]
pub struct Indexed<'a> {
    pub heads: &'a Heads,
    pub index: &'a Index,
}

impl<'a> Indexed<'a> {
    /// The first member type of a name that a class declares (JLS 8.5, 9.5).
    pub fn member(&self, class: u64, name: &str) -> Option<u64>
        requires { IsIndex self.now.heads.now self.now.index.now }
        ensures { result ≡ named name.now (declared_of self.now.heads.now class) }
    {
        self.index.members.find(class, name)
    }

    /// The first type of a name that a unit declares (JLS 7.6).
    pub fn type_of_unit(&self, unit: u64, name: &str) -> Option<u64>
        requires { IsIndex self.now.heads.now self.now.index.now }
        ensures { result ≡ named name.now (types_of_unit self.now.heads.now unit) }
    {
        self.index.tops.find(unit, name)
    }

    /// The first type of a name in a package (JLS 7.1).
    pub fn type_of_package(&self, package: &str, name: &str) -> Option<u64>
        requires { IsIndex self.now.heads.now self.now.index.now }
        ensures { result ≡ named name.now (types_of_package self.now.heads.now «package».now) }
    {
        match self.index.packages.find(0, package) {
            Some(space) => self.index.package_types.find(space, name),
            None => None,
        }
    }

    /// The first type parameter of a name that a class has (JLS 8.1.2).
    pub fn class_variable(&self, class: u64, name: &str) -> Option<u64>
        requires { IsIndex self.now.heads.now self.now.index.now }
        ensures { result ≡ named name.now (class_variables self.now.heads.now class) }
    {
        self.index.class_variables.find(class, name)
    }

    /// Whether a class has type parameters (JLS 8.1.2).
    #[tactic(auto, using(crate::proofs::Emptiness::generic_told))]
    pub fn is_generic(&self, class: u64) -> bool
        requires { IsIndex self.now.heads.now self.now.index.now }
        ensures { result ≡ not (is_empty (class_variables self.now.heads.now class)) }
    {
        self.index.class_variables.has_names(class)
    }

    /// The first type parameter of a name that a method has (JLS 8.4.4).
    pub fn method_variable(&self, method: u64, name: &str) -> Option<u64>
        requires { IsIndex self.now.heads.now self.now.index.now }
        ensures { result ≡ named name.now (method_variables self.now.heads.now method) }
    {
        self.index.method_variables.find(method, name)
    }
}
