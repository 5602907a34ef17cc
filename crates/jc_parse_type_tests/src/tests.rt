//! What no clause says of `jc_parse_type`.
ghost use Rattle.std.specs.Prelude.{◌<◌, ◌^◌, length, IfSome};

use jc_lexer::{Token, tokens};
use jc_parse_type::type_at;
use jc_rules::{Items, Stop};
use jc_tree::{BaseTree, ClassTree, ParseFault, TypeArg, TypePart, TypeTree};
use std::alloc::Global;
use std::process::Abort;
use std::test::Fail;

/// A type as it is written, without blanks.
#[cycle(spelling)]
fn spelled(alloc: Global, ty: &TypeTree) -> Result<String, Fail> {
    let mut text = match &ty.base {
        BaseTree::Primitive { at, word } => format!(in alloc; "{word:?}@{at}")?,
        BaseTree::Class(class) => spelled_class(alloc, class)?,
    };
    for _ in 0..ty.dims {
        text.push_str("[]")?;
    }
    Ok(text)
}

#[cycle(spelling)]
fn spelled_class(alloc: Global, class: &ClassTree) -> Result<String, Fail> {
    let mut text = spelled_part(alloc, &class.first)?;
    for part in class.more.slice() {
        let part = spelled_part(alloc, part)?;
        text.push_str(format!(in alloc; ".{part}")?.as_str())?;
    }
    Ok(text)
}

#[cycle(spelling)]
fn spelled_part(alloc: Global, part: &TypePart) -> Result<String, Fail> {
    let mut text = format!(in alloc; "{}@{}", part.name.text.str(), part.name.at)?;
    for arg in part.args.slice() {
        let arg = spelled_arg(alloc, arg)?;
        text.push_str(format!(in alloc; "<{arg}>")?.as_str())?;
    }
    Ok(text)
}

#[cycle(spelling)]
fn spelled_arg(alloc: Global, arg: &TypeArg) -> Result<String, Fail> {
    Ok(match arg {
        TypeArg::Exact(ty) => spelled(alloc, ty)?,
        TypeArg::Any { at } => format!(in alloc; "?@{at}")?,
        TypeArg::Extends { at, bound } => format!(in alloc; "?@{at}+{}", spelled(alloc, bound)?)?,
        TypeArg::Super { at, bound } => format!(in alloc; "?@{at}-{}", spelled(alloc, bound)?)?,
    })
}

/// The tokens of a short source.
fn few_tokens(alloc: Global, bytes: &[u8]) -> Option<Items<Token>>
    ensures { IfSome result (λ tokens. length tokens < 2 ^ 32) }
{
    if 1_000_000 < bytes.len() {
        return None;
    }
    match tokens(alloc, bytes) {
        Ok(tokens) => {
            if tokens.len() < 1_000_000 {
                Some(tokens)
            } else {
                None
            }
        }
        Err(_) => None,
    }
}

/// What `type_at` answers of the first token: the tree, the token behind it and the reach; or the token of the fault.
fn told(alloc: Global, source: &str) -> Result<String, Fail> {
    let Some(tokens) = few_tokens(alloc, source.as_bytes()) else {
        return Ok(String::from_str(alloc, "no tokens")?);
    };
    match type_at(alloc, tokens.slice(), 0) {
        Ok(found) => {
            let tree = spelled(alloc, &found.tree)?;
            Ok(format!(in alloc; "{tree} {} {}", found.next, found.reach)?)
        }
        Err(Stop::Refused(ParseFault::Syntax { token })) => Ok(format!(in alloc; "fault {token}")?),
        Err(Stop::Refused(ParseFault::LeftOut { .. })) => {
            Ok(String::from_str(alloc, "left out")?)
        }
        Err(Stop::WantOfMemory) => Ok(String::from_str(alloc, "want of memory")?),
    }
}

fn each_is_told(rt: &impl Abort, alloc: Global, table: &[(&str, &str)]) -> Result<(), Fail> {
    for (source, want) in table {
        let line = told(alloc, source)?;
        assert_eq!(rt; line.as_str(), *want, "of {source}");
    }
    Ok(())
}

#[test]
fn types_have_the_trees_of_the_language(rt: HostRuntime) -> Result<(), Fail> {
    each_is_told(
        &rt,
        rt.alloc(),
        &[
            ("int", "Int@0 1 1"),
            ("long [ ] []", "Long@0[][] 5 5"),
            ("a . b", "a@0.b@4 3 3"),
            ("List<String>[] x", "List@0<String@5>[] 6 6"),
            ("Map<K,V>.Entry", "Map@0<K@4><V@6>.Entry@9 8 8"),
            ("A<?>", "A@0<?@2> 4 4"),
            ("A<? extends B[]>", "A@0<?@2+B@12[]> 8 8"),
            ("A<? super B<C>>", "A@0<?@2-B@10<C@12>> 9 9"),
            ("A<B<C>>>", "A@0<B@2<C@4>> 7 7"),
            ("int<A>", "Int@0 1 1"),
        ],
    )
}

#[test]
fn what_is_no_type_ends_at_the_reach(rt: HostRuntime) -> Result<(), Fail> {
    each_is_told(
        &rt,
        rt.alloc(),
        &[
            ("", "fault 0"),
            ("1", "fault 0"),
            ("? extends A", "fault 0"),
            ("A<", "A@0 1 2"),
            ("A<1>", "A@0 1 2"),
            ("A<B;", "A@0 1 3"),
            ("A<B,>", "A@0 1 4"),
            ("A<? extends>", "A@0 1 4"),
            ("A.*", "A@0 1 2"),
            ("a[0]", "a@0 1 2"),
        ],
    )
}

/// `A<A<..A..>>`, so many deep. A `<` may follow the 200th name, since `A<?>` is no deeper than `A`.
fn nested(alloc: Global, deep: usize) -> Result<String, Fail> {
    let mut text = String::from_str(alloc, "A")?;
    for _ in 1..deep {
        text.push_str("<A")?;
    }
    for _ in 1..deep {
        text.push_str(">")?;
    }
    Ok(text)
}

#[test]
fn types_nest_200_deep(rt: HostRuntime) -> Result<(), Fail> {
    let alloc = rt.alloc();
    for (deep, next, reach) in [(200, 598, 598), (201, 1, 400), (30000, 1, 400)] {
        let text = nested(alloc, deep)?;
        let Some(tokens) = few_tokens(alloc, text.as_bytes()) else {
            assert!(&rt; false);
            return Ok(());
        };
        let Ok(found) = type_at(alloc, tokens.slice(), 0) else {
            assert!(&rt; false);
            return Ok(());
        };
        assert_eq!(rt; found.next, next);
        assert_eq!(rt; found.reach, reach);
    }
    Ok(())
}
