//! Nodes of the parts that a parser has read, each made of a first part and of what was read behind it (JLS 8, 9, 14): nothing here reads a token.
#![tactic(auto)]

mod arms;
mod head_nodes;
mod head_parts;
mod headings;
mod heads;
mod joins;
mod nodes;
mod pieces;
mod trees;

pub use arms::{arm_branch, if_else_of, if_of, is_open, last_branch, takes_else, with_last};
pub use head_nodes::{
    catch_head_of, catch_opening_of, caught_of, caught_types_of, for_dims_of, for_effects_of,
    for_kind_of, for_more_of, for_named_of, for_tail_of, for_typed_of, more_resources_of,
    resource_of, resources_of, typed_value_of, valued_of,
};
pub use head_parts::{
    Caught, CaughtTypes, ForDims, ForKind, ForMore, ForNamed, ForTail, ForTyped, MoreResources,
    TypedValue, Valued,
};
pub use headings::{
    constructor_end_of, fields_of, generic_of, headed_of, method_end_of, method_of, method_tail_of,
    named_of, parts_of, signature_of, super_call_of, this_call_of, typed_shape_of, void_of,
};
pub use heads::{CodeHead, FieldsTail, MemberHead, Named, NamedTail, Shape, Signature};
pub use joins::{behind, boxed, join, reaching, single, some};
pub use nodes::{
    arm_of, bare_local_of, block_of, body_of, break_of, clause_of, continue_of, declared_of, do_of,
    for_of, for_opening_of, guarded_of, initialiser_of, labeled_of, local_of, nested_of, return_of,
    switch_of, throw_of, top_of, try_of, try_with_of, typed_of, while_of,
};
pub use pieces::{Body, Branch, ForOpening, Guarded, Opening, Tested, Typed};
pub use trees::{HeadTree, Vars};
