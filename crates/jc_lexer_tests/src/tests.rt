//! What no clause says of `jc_lexer`.
use jc_lexer::{TokenKind, lex_all, tokens};
use jc_rules::{Items, Stop};
use std::alloc::Global;
use std::process::Abort;
use std::test::Fail;

/// The tokens of a source as a line: what each is, its offsets, and `~` where the next one touches it; or the rule and the place.
fn told(alloc: Global, bytes: &[u8]) -> Result<String, Fail> {
    let mut line = String::new(alloc);
    if 1000 < bytes.len() {
        return Ok(line);
    }
    match tokens(alloc, bytes) {
        Ok(list) => {
            for token in list.slice() {
                let touches = if token.touches { "~" } else { "" };
                let kind = told_kind(alloc, &token.kind)?;
                let (from, to) = (token.from, token.to);
                line.push_str(format!(in alloc; "{kind}@{from}-{to}{touches} ")?.as_str())?;
            }
        }
        Err(Stop::Refused(fault)) => {
            line.push_str(format!(in alloc; "{} at {}", fault.rule(), fault.at())?.as_str())?;
        }
        Err(Stop::WantOfMemory) => line.push_str("want of memory")?,
    }
    Ok(line)
}

fn told_kind(alloc: Global, kind: &TokenKind) -> Result<String, Fail> {
    Ok(match kind {
        TokenKind::Word(text) => format!(in alloc; "{}", text.str())?,
        TokenKind::Key(key) => format!(in alloc; "{key:?}")?,
        TokenKind::Number {
            value,
            long,
            decimal,
        } => format!(in alloc;
            "{value}{}{}",
            if *long { "L" } else { "" },
            if *decimal { "" } else { "#" }
        )?,
        TokenKind::CharLit(unit) => format!(in alloc; "'{unit}'")?,
        TokenKind::StringLit(units) => format!(in alloc; "{:?}", units.get().slice())?,
        TokenKind::Sign(sign) => format!(in alloc; "{sign:?}")?,
    })
}

fn each_is_told(rt: &impl Abort, alloc: Global, table: &[(&str, &str)]) -> Result<(), Fail> {
    for (source, want) in table {
        let line = told(alloc, source.as_bytes())?;
        assert_eq!(rt; line.as_str(), *want, "of {source}");
    }
    Ok(())
}

#[test]
fn sources_have_the_tokens_of_the_language(rt: HostRuntime) -> Result<(), Fail> {
    each_is_told(
        &rt,
        rt.alloc(),
        &[
            (
                "class A {}",
                "Class@0-5 A@6-7 LeftBrace@8-9~ RightBrace@9-10 ",
            ),
            ("a+++b", "a@0-1~ Increment@1-3~ Plus@3-4~ b@4-5 "),
            (
                "a>>=b> >",
                "a@0-1~ Greater@1-2~ Greater@2-3~ Assign@3-4~ b@4-5~ Greater@5-6 Greater@7-8 ",
            ),
            (
                "x<<=y...",
                "x@0-1~ ShiftLeftAssign@1-4~ y@4-5~ Ellipsis@5-8 ",
            ),
            ("a/*/*/ b//c\n/**/d", "a@0-1 b@7-8 d@16-17 "),
            ("true nul\tnull", "True@0-4 nul@5-8 Null@9-13 "),
            (
                "0 0x7fff_ffffL 0b1010 0_17 1_0 18446744073709551615",
                "0@0-1 2147483647L#@2-14 10#@15-21 15#@22-26 10@27-30 18446744073709551615@31-51 ",
            ),
            ("1e 0xg", "105 at 3"),
            ("1e", "1@0-1~ e@1-2 "),
            (
                "'a' '\\n' '\\377' '\\u0041' '\\\\'",
                "'97'@0-3 '10'@4-8 '255'@9-15 '65'@16-24 '92'@25-29 ",
            ),
            ("\"a\\tb\\0\\1234\"", "[97, 9, 98, 0, 83, 52]@0-13 "),
            ("\"\u{1F600}\"", "[55357, 56832]@0-6 "),
            ("\"\\\\u0041\"", "[92, 117, 48, 48, 52, 49]@0-9 "),
            ("\\uuu0041b \\u0063lass \\u002f/ x", "Ab@0-9 Class@10-20 "),
            (
                "\u{E9}_1 \u{10400} \\ud801\\udc00",
                "\u{E9}_1@0-4 \u{10400}@5-9 \u{10400}@10-22 ",
            ),
        ],
    )
}

#[test]
fn faults_stand_where_the_text_cannot_go_on(rt: HostRuntime) -> Result<(), Fail> {
    each_is_told(
        &rt,
        rt.alloc(),
        &[
            ("class A { /*", "106 at 10"),
            ("class A {} \\u00", "103 at 11"),
            ("18446744073709551616", "105 at 0"),
            ("a 09", "105 at 2"),
            ("0x", "105 at 0"),
            ("1_", "105 at 0"),
            ("0b2", "105 at 0"),
            ("''", "105 at 0"),
            ("'ab'", "105 at 0"),
            ("'\\q'", "105 at 0"),
            ("'\u{1F600}'", "105 at 0"),
            ("\"\\u005cu005a\"", "105 at 0"),
            ("a 'b\n'", "107 at 2"),
            ("\"abc\n\"", "107 at 0"),
            ("\"a\\", "107 at 0"),
            ("09.5", "108 at 0"),
            ("1.", "108 at 0"),
            (" .5", "108 at 1"),
            ("1f", "108 at 0"),
            ("1e5", "108 at 0"),
            ("0x1p3", "108 at 0"),
            ("0x.8P-1", "108 at 0"),
            ("a #", "104 at 2"),
            ("a \\ b", "104 at 2"),
            ("\u{FEFF}a", "104 at 0"),
            ("\\ud801 ", "104 at 0"),
            ("a$b", "109 at 1"),
            ("\"$\" /*$*/ $", "109 at 10"),
            ("\\u12g4", "103 at 0"),
            ("\"a\\uZ", "103 at 2"),
        ],
    )
}

#[test]
fn bytes_that_are_no_text_are_the_fault_unless_an_earlier_one_is_sure(
    rt: HostRuntime,
) -> Result<(), Fail> {
    let table: [(&[u8], &str); 10] = [
        (b"class A {}\xC3", "102 at 10"),
        (b"\xC0\x80", "102 at 0"),
        (b"a\xED\xA0\x80", "102 at 1"),
        (b"\xF4\x90\x80\x80", "102 at 0"),
        (b"/* \xFF", "102 at 3"),
        (b"\"a\xFF", "102 at 2"),
        (b"09\xFF", "102 at 2"),
        (b"09e\xFF", "102 at 3"),
        (b"09 \xFF", "105 at 0"),
        (b"# \xFF", "104 at 0"),
    ];
    for (bytes, want) in table {
        let line = told(rt.alloc(), bytes)?;
        assert_eq!(rt; line.as_str(), want);
    }
    Ok(())
}

#[test]
fn files_count_from_one_and_their_lengths_add_up(rt: HostRuntime) -> Result<(), Fail> {
    let alloc = rt.alloc();
    let first = Items::of(b"a;".to_vec(alloc)?);
    let second = Items::of(b"b #".to_vec(alloc)?);
    let spaces = Items::of(vec![in alloc; b' '; 16_777_215]?);
    let mut files = Items::new(alloc);
    files.push(first)?;
    assert_eq!(rt; told_files(alloc, files.slice()), (0, 1, 0));
    files.push(spaces)?;
    assert_eq!(rt; told_files(alloc, files.slice()), (101, 2, 0));
    let _ = files.pop();
    files.push(second)?;
    assert_eq!(rt; told_files(alloc, files.slice()), (104, 2, 2));
    Ok(())
}

/// The rule and the place of a refusal, or 0 and how many lists there are.
fn told_files(alloc: Global, files: &[Items<u8>]) -> (u16, u64, u32) {
    match lex_all(alloc, files) {
        Ok(lists) => (0, lists.len() as u64, 0),
        Err(Stop::Refused(refusal)) => {
            let rule = refusal.rule;
            let place = refusal.place;
            (rule.number(), place.file, place.at)
        }
        Err(Stop::WantOfMemory) => (0, 0, 0),
    }
}
