//! What no clause says of `jc_small`.
use jc_lexer::tokens;
use jc_small::compile;
use std::test::Fail;

const HI: &str =
    "class Main { public static void main(String[] args) { System.out.write(70 + 2); System.out.write(105); } }";

#[test]
fn a_small_source_has_a_class(rt: HostRuntime) -> Result<(), Fail> {
    let tokens = tokens(rt.alloc(), HI.as_bytes())?;
    let class = compile(rt.alloc(), tokens.slice())?.ok_or("a class")?;
    assert_eq!(rt; class.methods.len(), 2);
    Ok(())
}

#[test]
fn other_sources_have_none(rt: HostRuntime) -> Result<(), Fail> {
    for text in [
        "",
        "class Main { }",
        "class Main { public static void main(String[] args) { System.out.write(2147483648); } }",
        "class Main { public static void main(String[] args) { System.out.write(07); } }",
        "classMain { public static void main(String[] args) { } }",
        "class Main { public static void main(String[] args) { } } }",
    ] {
        assert!(rt; text.len() <= 16777216);
        let tokens = tokens(rt.alloc(), text.as_bytes())?;
        assert!(rt; compile(rt.alloc(), tokens.slice())?.is_none());
    }
    Ok(())
}
