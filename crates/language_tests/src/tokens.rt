//! Scripts, with the number of their tokens or their first fault. Which tokens these are is worked
//! rows.
use myrial_lexer::{LexFault, LexWhat, lex};
use std::alloc::Global;

/// The number of tokens of a script that is not too long.
fn count_of_tokens(alloc: Global, source: &[u8]) -> Result<u32, LexFault> {
    if source.len() > 65536 {
        return Ok(0);
    }
    Ok(lex(alloc, source)?.len())
}

const fn at(line: u32, what: LexWhat) -> Result<u32, LexFault> {
    Err(LexFault::At { line, what })
}

#[test]
fn each_text_has_its_tokens_or_its_first_fault(rt: HostRuntime) {
    let table: [(&[u8], Result<u32, LexFault>); 15] = [
        (b"", Ok(0)),
        (b" \t\r\n-- all of it", Ok(0)),
        (b"A = scan(R);", Ok(7)),
        (b"a--b", Ok(1)),
        (b"a -b", Ok(3)),
        (b"-- c\nx_1", Ok(1)),
        (b"== = != <> <= < >= >", Ok(8)),
        (b"+*[],.:$", Ok(8)),
        (b"1.5 007", Ok(4)),
        (b"'a\"b' \"\\\"", Ok(2)),
        (
            b"A = scan(R);\nB = [from A emit #];",
            at(2, LexWhat::BadChar),
        ),
        (b"A = \"x", at(1, LexWhat::OpenString)),
        (b"A = 9223372036854775808;", at(1, LexWhat::NumberTooLarge)),
        (b"\xff", Err(LexFault::NotText)),
        (b"\n\n'\xc3\xa9' \xc3\xa9", at(3, LexWhat::BadChar)),
    ];
    for (source, wanted) in table {
        assert_eq!(rt; count_of_tokens(rt.alloc(), source), wanted);
    }
}
