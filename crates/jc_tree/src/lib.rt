//! The trees of Java sources, as the grammar builds them (JLS 18).
#![tactic(auto)]

mod copy;
mod expression;
mod fault;
mod heights;
mod name;
mod offsets;
mod statement;
mod types;

pub use copy::{copy_args, copy_base, copy_class, copy_ident, copy_text, copy_type};
pub use expression::{
    ArrayInit, AssignOp, BinaryOp, Creation, Expr, Init, Literal, Operand, PostfixOp, PrefixOp,
    PrefixSign, Skip, SkipPart,
};
pub use fault::ParseFault;
pub use heights::{
    args_height, array_height, base_height, class_height, expr_height, height, modifiers_height,
    type_height,
};
pub use name::Ident;
pub use offsets::{
    first_offset_of_arg, first_offset_of_class, first_offset_of_clause, first_offset_of_creation,
    first_offset_of_declaration, first_offset_of_expr, first_offset_of_file,
    first_offset_of_formal, first_offset_of_init, first_offset_of_locals, first_offset_of_member,
    first_offset_of_method, first_offset_of_stmt, first_offset_of_type, first_offset_of_value,
};
pub use statement::{
    Annotation, AnnotationValue, Clause, ClauseHead, Declaration, DeclarationHead, ForHead,
    ForInit, Formal, Import, LocalVars, Member, MethodHead, Modifier, ModifierWord, Package, Pair,
    Resource, Resources, ResultType, SourceFile, Stmt, TopLevel, TypeParam, TypeParams, Var,
};
pub use types::{BaseTree, ClassTree, PrimitiveWord, TypeArg, TypePart, TypeTree};
