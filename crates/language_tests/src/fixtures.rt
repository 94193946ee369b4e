//! Scripts and files, of their texts.
use myrial_ast::Script;
use myrial_lexer::lex;
use myrial_parser::parse;
use rel_base::{Files, Key, Memory, Text};
use relation_csv::{RelFault, read_relation};
use std::alloc::Global;
use std::test::Fail;

/// The statements of a script.
pub(crate) fn script_of(alloc: Global, source: &str) -> Result<Script, Fail> {
    let bytes = source.as_bytes();
    if bytes.len() > 65536 {
        return Err(Fail::from("the script is too long"));
    }
    let tokens = lex(alloc, bytes)?;
    Ok(parse(alloc, &tokens, bytes)?)
}

/// The key `public:adhoc:R`.
fn key_of_r(alloc: Global) -> Result<Key, Memory> {
    Ok(Key {
        user: Text::of(alloc, "public")?,
        program: Text::of(alloc, "adhoc")?,
        name: Text::of(alloc, "R")?,
    })
}

/// The files of which R, the one, has this text.
pub(crate) fn files_of(alloc: Global, text: &str) -> Result<Files, RelFault> {
    let relation = read_relation(alloc, text.as_bytes())?;
    let key = key_of_r(alloc)?;
    let mut files = Files::new(alloc);
    files.push((key, relation))?;
    Ok(files)
}
