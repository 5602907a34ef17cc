//! The text of each rule, as it is printed.
ghost use Rattle.std.specs.Prelude.{◌≡◌};
ghost use Rattle.jc_rules.specs.Rules.{lexical_text, syntax_text, names_text, types_text, headers_text, bodies_text, flow_text, clashes_text, limits_text, text_at};

use crate::{Rule, Stage};

/// The text that names a rule to a user.
pub fn text_of(rule: Rule) -> &'static str
    ensures { result.now ≡ text_at rule }
{
    let number = rule.number();
    match rule.stage() {
        Stage::Lexical => lexical(number),
        Stage::Syntax => syntax(number),
        Stage::Names => names(number),
        Stage::Types => types(number),
        Stage::Headers => headers(number),
        Stage::Bodies => bodies(number),
        Stage::Flow => flow(number),
        Stage::Clashes => clashes(number),
        Stage::Limits => limits(number),
    }
}

fn lexical(number: u16) -> &'static str
    ensures { result.now ≡ lexical_text number }
{
    match number {
        101 => "source too long",
        102 => "not UTF-8",
        103 => "bad Unicode escape",
        104 => "bad character",
        105 => "bad literal",
        106 => "comment not closed",
        107 => "literal not closed",
        108 => "floating-point literal",
        109 => "dollar sign",
        _ => "",
    }
}

fn syntax(number: u16) -> &'static str
    ensures { result.now ≡ syntax_text number }
{
    match number {
        201 => "word left out",
        202 => "syntax error or nesting above 200",
        203 => "form left out",
        _ => "",
    }
}

fn names(number: u16) -> &'static str
    ensures { result.now ≡ names_text number }
{
    match number {
        301 => "type declared twice",
        302 => "unknown type",
        303 => "ambiguous type",
        304 => "cyclic supertypes",
        305 => "wrong kind of supertype",
        306 => "unknown import",
        307 => "member or type parameter declared twice",
        308 => "wrong package",
        309 => "wrong modifiers",
        310 => "type not accessible",
        311 => "type variable in a static place",
        _ => "",
    }
}

fn types(number: u16) -> &'static str
    ensures { result.now ≡ types_text number }
{
    match number {
        401 => "wrong count of type arguments",
        402 => "type argument outside its bound",
        403 => "super bound outside the declared bound",
        404 => "primitive type argument",
        405 => "two classes meet in a bound",
        406 => "subtyping question deeper than 64",
        407 => "cyclic type variable",
        408 => "wildcard in a supertype",
        409 => "wrong kind of bound",
        _ => "",
    }
}

fn headers(number: u16) -> &'static str
    ensures { result.now ≡ headers_text number }
{
    match number {
        501 => "generic class extends Throwable",
        502 => "one interface with different arguments",
        503 => "same signature twice",
        504 => "final method overridden",
        505 => "static and instance methods meet",
        506 => "weaker access",
        507 => "result does not fit",
        508 => "exception not in the overridden clause",
        509 => "abstract method left open",
        510 => "overrides nothing",
        511 => "inherited methods do not agree",
        512 => "subtyping question deeper than 64",
        513 => "thrown type is not a Throwable",
        514 => "body missing or unwanted",
        _ => "",
    }
}

fn bodies(number: u16) -> &'static str
    ensures { result.now ≡ bodies_text number }
{
    match number {
        601 => "literal out of range",
        602 => "unknown name",
        603 => "unknown member",
        604 => "no applicable member",
        605 => "call is ambiguous",
        606 => "subtyping question deeper than 64",
        607 => "types do not convert",
        608 => "cast cannot succeed",
        609 => "operator does not take these types",
        610 => "not a variable",
        611 => "no this here",
        612 => "type is not reifiable",
        613 => "abstract type cannot be created",
        614 => "wrong switch",
        615 => "wrong jump or label",
        616 => "local declared twice",
        617 => "not an array or Iterable",
        618 => "member not accessible",
        619 => "wrong return",
        620 => "wrong constructor call",
        621 => "abstract method called through super",
        622 => "field is ambiguous",
        623 => "wrong explicit arguments or diamond",
        624 => "two classes meet in a capture",
        625 => "not a Throwable, or related alternatives",
        626 => "forward reference",
        _ => "",
    }
}

fn flow(number: u16) -> &'static str
    ensures { result.now ≡ flow_text number }
{
    match number {
        701 => "statement cannot be reached",
        702 => "end without a value",
        703 => "exception not caught",
        704 => "catch clause never used",
        705 => "variable not assigned",
        706 => "final variable assigned",
        707 => "final field not assigned",
        708 => "initialiser cannot complete",
        _ => "",
    }
}

fn clashes(number: u16) -> &'static str
    ensures { result.now ≡ clashes_text number }
{
    match number {
        801 => "methods clash after erasure",
        _ => "",
    }
}

fn limits(number: u16) -> &'static str
    ensures { result.now ≡ limits_text number }
{
    match number {
        900 => "form not built yet",
        901 => "method too large",
        902 => "too many constants",
        903 => "too many parameters",
        904 => "text too long",
        905 => "too many dimensions",
        _ => "",
    }
}
