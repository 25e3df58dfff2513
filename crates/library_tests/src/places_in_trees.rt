// Where tokens and nodes of trees begin, and their values.

use expr_parser::read_expr;
use std::test::Fail;
use vale_lexer::{LexFault, tokens};
use vale_syntax::{Expr, Spot, TokenKind};

#[test]
fn tells_values_and_places(rt: HostRuntime) -> Result<(), Fail> {
    let read = match tokens(rt.alloc(), 3, b"\n 0x1Fw") {
        Ok(read) => read,
        Err(fault) => {
            assert_eq!(rt; fault, LexFault::NoMemory);
            return Ok(());
        }
    };
    assert_eq!(rt; read.len(), 1);
    for token in read.as_slice() {
        assert_eq!(rt; token.kind, TokenKind::Word(31));
        assert_eq!(rt; token.spot, Spot { file: 3, at: 2 });
    }
    Ok(())
}

#[test]
fn tells_where_each_node_begins(rt: HostRuntime) -> Result<(), Fail> {
    let alloc = rt.alloc();
    let Ok(read) = tokens(alloc, 2, b" (a) + -b[ 1 ]") else {
        assert!(rt; false);
        return Ok(());
    };
    let Ok(Expr::Binary(sum, _, left, right)) = read_expr(alloc, read.as_slice()) else {
        assert!(rt; false);
        return Ok(());
    };
    assert_eq!(rt; (sum.file, sum.at), (2, 1));
    let Expr::Name(a) = left.into_inner() else {
        assert!(rt; false);
        return Ok(());
    };
    assert_eq!(rt; a.spot.at, 2);
    let Expr::Unary(minus, _, inner) = right.into_inner() else {
        assert!(rt; false);
        return Ok(());
    };
    assert_eq!(rt; minus.at, 7);
    let Expr::Index(b, _, at) = inner.into_inner() else {
        assert!(rt; false);
        return Ok(());
    };
    assert_eq!(rt; b.at, 8);
    let Expr::Int(one, value) = at.into_inner() else {
        assert!(rt; false);
        return Ok(());
    };
    assert_eq!(rt; (one.at, value), (11, 1));
    Ok(())
}
