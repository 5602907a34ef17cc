//! The types of Java 7, and the table of what a program declares: classes, methods, fields, type variables, scopes and the
//! types that bodies write. Every later layer speaks of these.
#![tactic(auto)]

mod accessors;
mod arrays;
mod breaks;
mod constant;
mod conversion;
mod copy;
mod declarations;
mod environment;
mod equality;
mod erased;
mod erasing;
mod form;
mod ids;
mod index;
mod inside;
mod reifying;
mod rows;
mod scopes;
mod sizes;
mod substitution;
mod table;

pub use accessors::{
    captured_lower, captured_uppers, class_at, class_binary, class_fields, class_methods,
    class_modifiers, class_name, class_named, class_package, class_supers, class_vars,
    declared_bounds, field_at, field_modifiers, field_owner, field_type, has_body, is_interface,
    is_variable_arity, method_at, method_kind, method_modifiers, method_name, method_owner,
    method_params, method_result, method_thrown, method_vars, variable_at,
};
pub use arrays::{array_over, element};
pub use breaks::{is_before, sooner};
pub use constant::{Constant, ConstantExpr, ConstantPart, ConstantType, Op};
pub use conversion::{Conversion, Phase, Step};
pub use copy::{copy_arg, copy_args, copy_bounds, copy_type, copy_types};
pub use declarations::{
    Access, ClassDecl, FieldDecl, FieldValue, Kind, MethodDecl, MethodKind, Modifiers, Owner,
    ParamName, TypePlaces, VariableDecl, Written, WrittenTypes,
};
pub use environment::{Bounds, Env};
pub use equality::{same_arg, same_type};
pub use erased::{Base, Erased};
pub use erasing::erasure;
pub use form::{Arg, Primitive, Ty};
pub use ids::{CaptureId, ClassId, FieldId, MethodId, ScopeId, VarId};
pub use index::Names;
pub use inside::class_types;
pub use reifying::{arguments, reifiable};
pub use rows::is_row;
pub use scopes::{Demand, Inherited, Scope, ScopeOf, Use, UseKind};
pub use sizes::size;
pub use substitution::{substitute, substitute_all};
pub use table::Table;
