//! Tables made by hand, declaration by declaration.
ghost use Rattle.std.specs.Prelude.{◌≡◌, IsTrue, length, IfOk, OnOk, OnErr};
ghost use Rattle.jc_types.specs.Tables.{IsTable, scope_fits};
ghost use Rattle.jc_tables.specs.Making.{empty, with_method, with_field, with_variable, with_scope, with_use, method_stands, field_stands, variable_stands, use_stands};

use jc_rules::{Items, WantOfMemory};
use jc_types::{
    FieldDecl, FieldId, MethodDecl, MethodId, Names, Scope, ScopeId, Table, Use, VarId,
    VariableDecl,
};
use std::alloc::Global;

/// A table without declarations.
#[tactic(auto, using(crate::proofs::Kept::empty_kept))]
pub fn empty_table(alloc: Global) -> Table
    ensures made { result ≡ empty }
    ensures kept { IsTable result }
{
    Table {
        classes: Items::new(alloc),
        methods: Items::new(alloc),
        fields: Items::new(alloc),
        variables: Items::new(alloc),
        scopes: Items::new(alloc),
        uses: Items::new(alloc),
        index: Names::new(alloc),
    }
}

/// Adds a method, constructor or static initialiser.
pub fn push_method(table: &mut Table, method: MethodDecl) -> Result<MethodId, WantOfMemory>
    ensures id { IfOk result (λ id. id.0 ≡ length table.old.methods) }
    ensures made { OnOk result (table.new ≡ with_method table.old method) }
    ensures kept { OnOk result (IsTable table.old → IsTrue (method_stands table.new method) → IsTable table.new) }
    ensures unchanged { OnErr result (table.new ≡ table.old) }
{
    let id = MethodId(table.methods.len() as u64);
    table.methods.push(method)?;
    Ok(id)
}

/// Adds a field.
pub fn push_field(table: &mut Table, field: FieldDecl) -> Result<FieldId, WantOfMemory>
    ensures id { IfOk result (λ id. id.0 ≡ length table.old.fields) }
    ensures made { OnOk result (table.new ≡ with_field table.old field) }
    ensures kept { OnOk result (IsTable table.old → IsTrue (field_stands table.new field) → IsTable table.new) }
    ensures unchanged { OnErr result (table.new ≡ table.old) }
{
    let id = FieldId(table.fields.len() as u64);
    table.fields.push(field)?;
    Ok(id)
}

/// Adds a type variable. Those of one class or method that are added one after the other are a row, in which one is found without
/// a walk.
pub fn push_variable(table: &mut Table, variable: VariableDecl) -> Result<VarId, WantOfMemory>
    ensures id { IfOk result (λ id. id.0 ≡ length table.old.variables) }
    ensures made { OnOk result (table.new ≡ with_variable table.old variable) }
    ensures kept { OnOk result (IsTable table.old → IsTrue (variable_stands table.new variable) → IsTable table.new) }
    ensures unchanged { OnErr result (table.new ≡ table.old) }
{
    let id = VarId(table.variables.len() as u64);
    table.variables.push(variable)?;
    Ok(id)
}

/// Adds a scope.
pub fn push_scope(table: &mut Table, scope: Scope) -> Result<ScopeId, WantOfMemory>
    ensures id { IfOk result (λ id. id.0 ≡ length table.old.scopes) }
    ensures made { OnOk result (table.new ≡ with_scope table.old scope) }
    ensures kept { OnOk result (IsTable table.old → IsTrue (scope_fits table.new scope) → IsTable table.new) }
    ensures unchanged { OnErr result (table.new ≡ table.old) }
{
    let id = ScopeId(table.scopes.len() as u64);
    table.scopes.push(scope)?;
    Ok(id)
}

/// Adds a type that a body writes.
pub fn push_use(table: &mut Table, written: Use) -> Result<(), WantOfMemory>
    ensures made { OnOk result (table.new ≡ with_use table.old written) }
    ensures kept { OnOk result (IsTable table.old → IsTrue (use_stands table.new written) → IsTable table.new) }
    ensures unchanged { OnErr result (table.new ≡ table.old) }
{
    table.uses.push(written)?;
    Ok(())
}
