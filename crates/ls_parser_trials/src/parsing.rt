// Tokens that are parsed.

use ls_lexer::lexing::lex;
use ls_parser::parsing::{one_file, one_tree, parse};
use std::test::Fail;

#[test]
fn parse_of_tokens(rt: HostRuntime) -> Result<(), Fail> {
    let alloc = rt.alloc();
    one_tree();
    one_file();
    let text = "package a; import b.*; class H { AtomicMarkableReference<H> r; }";
    let tokens = lex(alloc, text).map_err(|_| "no tokens")?;
    let file = parse(alloc, &tokens).map_err(|_| "refused")?;
    assert_eq!(rt; file.classes().len(), 1);
    assert_eq!(rt; file.imports().len(), 1);
    assert!(rt; file.package().is_some());
    Ok(())
}
