// What the readers of sources make of a text.

use anyhow::{Result, bail};
use bstr::ByteSlice;
use expr_parser::read_expr;
use sqlite_items::Items;
use std::alloc::Global;
use vale_lexer::{LexFault, tokens};
use vale_parser::{ParseFault, read_decls};
use vale_syntax::{
    Decl, Expr, LemmaStmt, MatchFault, Name, Stmt, Token, TokenKind, UnaryOp, print_expr,
    printed_as_spelled,
};

// The tokens of a text, or why there are none.
fn scanned(alloc: Global, text: &[u8]) -> Result<Result<Vec<Token>, String>> {
    if text.len() >= 1 << 32 {
        return Ok(Err(format!(in alloc; "too long")?));
    }
    Ok(match tokens(alloc, 0, text) {
        Ok(read) => Ok(read),
        Err(LexFault::BadByte { at }) => Err(format!(in alloc; "BadByte {at}")?),
        Err(LexFault::NumberTooLarge { at }) => Err(format!(in alloc; "NumberTooLarge {at}")?),
        Err(LexFault::OpenComment { at }) => Err(format!(in alloc; "OpenComment {at}")?),
        Err(LexFault::NoMemory) => Err(format!(in alloc; "NoMemory")?),
    })
}

fn push_bytes(out: &mut String, bytes: &[u8]) -> Result<()> {
    bytes.to_str_lossy_into(out)?;
    Ok(())
}

// Each token as the letter of its kind and its text.
fn show_tokens(out: &mut String, read: &[Token]) -> Result<()> {
    for (k, token) in read.iter().enumerate() {
        if k != 0 {
            out.push_str(" ")?;
        }
        out.push_str(match token.kind {
            TokenKind::Name => "n",
            TokenKind::Stamped => "s",
            TokenKind::Int(_) => "i",
            TokenKind::Word(_) => "w",
            TokenKind::Wide(_) => "v",
            TokenKind::Mark(_) => "m",
        })?;
        push_bytes(out, token.text.as_bytes())?;
    }
    Ok(())
}

fn show_name(out: &mut String, name: &Name) -> Result<()> {
    push_bytes(out, name.text.as_bytes())
}

// The expression with each operator before its parts.
fn show_expr(out: &mut String, e: &Expr) -> Result<()> {
    match e {
        Expr::Int(_, value) => write!(out, "{value}")?,
        Expr::Word(_, value) => write!(out, "{value}w")?,
        Expr::Wide(_, value) => write!(out, "{value}v")?,
        Expr::True(_) => out.push_str("true")?,
        Expr::False(_) => out.push_str("false")?,
        Expr::Prev(_) => out.push_str("prev")?,
        Expr::Name(name) => show_name(out, name)?,
        Expr::Call(function, args) => {
            show_name(out, function)?;
            out.push_str("(")?;
            for arg in args.as_slice() {
                show_expr(out, arg)?;
                out.push_str(";")?;
            }
            out.push_str(")")?;
        }
        Expr::Index(_, array, at) => {
            out.push_str("[at ")?;
            show_expr(out, array.get())?;
            out.push_str(" ")?;
            show_expr(out, at.get())?;
            out.push_str("]")?;
        }
        Expr::Unary(_, op, inner) => {
            out.push_str(match op {
                UnaryOp::Not => "[! ",
                UnaryOp::Neg => "[- ",
            })?;
            show_expr(out, inner.get())?;
            out.push_str("]")?;
        }
        Expr::Binary(_, op, left, right) => {
            write!(out, "[{} ", op.text())?;
            show_expr(out, left.get())?;
            out.push_str(" ")?;
            show_expr(out, right.get())?;
            out.push_str("]")?;
        }
    }
    Ok(())
}

// Declarations with the numbers of their parts.
fn show_decl(out: &mut String, decl: &Decl) -> Result<()> {
    match decl {
        Decl::Procedure(_, name, params, clauses, body) => {
            out.push_str("procedure ")?;
            show_name(out, name)?;
            write!(out, " {} {}", params.len(), clauses.len())?;
            show_body(out, body)?;
        }
        Decl::Lemma(_, name, binds, clauses, body) => {
            out.push_str("lemma ")?;
            show_name(out, name)?;
            write!(out, " {} {}", binds.len(), clauses.len())?;
            show_lemma_body(out, body)?;
        }
        Decl::Function(_, name, binds, _, zero, _) => {
            out.push_str("function ")?;
            show_name(out, name)?;
            write!(out, " {} {}", binds.len(), zero.is_some())?;
        }
        Decl::Export(_, name, procedure, args) => {
            out.push_str("export ")?;
            show_name(out, name)?;
            out.push_str(" ")?;
            show_name(out, procedure)?;
            write!(out, " {}", args.len())?;
        }
    }
    out.push_str(";")?;
    Ok(())
}

fn show_body(out: &mut String, body: &Items<Stmt>) -> Result<()> {
    for stmt in body.as_slice() {
        match stmt {
            Stmt::Call(_, args) => write!(out, " call {}", args.len())?,
            Stmt::Assert(_, _) => out.push_str(" assert")?,
            Stmt::Ghost(_, _, _, _) => out.push_str(" ghost")?,
            Stmt::Assign(_, _) => out.push_str(" assign")?,
            Stmt::If(_, _, first, second) => write!(
                out,
                " if {} {}",
                first.len(),
                second.is_some()
            )?,
            Stmt::While(_, _, invariants, _, inner) => {
                write!(out, " while {} {}", invariants.len(), inner.len())?
            }
            Stmt::InlineIf(_, _, first, second) => {
                write!(out, " inline {} {}", first.len(), second.is_some())?
            }
        }
    }
    Ok(())
}

fn show_lemma_body(out: &mut String, body: &Items<LemmaStmt>) -> Result<()> {
    for stmt in body.as_slice() {
        match stmt {
            LemmaStmt::Call(_, args) => write!(out, " call {}", args.len())?,
            LemmaStmt::Assert(_, _) => out.push_str(" assert")?,
            LemmaStmt::If(_, _, first, second) => write!(
                out,
                " if {} {}",
                first.len(),
                second.is_some()
            )?,
        }
    }
    Ok(())
}

fn show_decls(alloc: Global, out: &mut String, read: &[Token]) -> Result<()> {
    match read_decls(alloc, read) {
        Ok(decls) => {
            for decl in decls.as_slice() {
                show_decl(out, decl)?;
            }
        }
        Err(ParseFault::NotADecl { first }) => write!(out, "no {}", first.at)?,
        Err(ParseFault::NoMemory) => out.push_str("NoMemory")?,
    }
    Ok(())
}

fn show_expression(alloc: Global, out: &mut String, read: &[Token]) -> Result<()> {
    match read_expr(alloc, read) {
        Ok(e) => show_expr(out, &e)?,
        Err(MatchFault::NoMatch) => out.push_str("no")?,
        Err(MatchFault::NoMemory) => out.push_str("NoMemory")?,
    }
    Ok(())
}

// The text of the expression that a text spells.
fn printed(alloc: Global, text: &[u8]) -> Result<Vec<u8>> {
    if text.len() >= 1 << 32 {
        bail!("only a shorter text is printed");
    }
    let Ok(read) = tokens(alloc, 0, text) else {
        bail!("only what has tokens is printed");
    };
    printed_as_spelled();
    match read_expr(alloc, read.as_slice()) {
        Ok(e) => Ok(Vec::from_slice(alloc, print_expr(alloc, &e)?.as_bytes())?),
        Err(_) => bail!("only an expression is printed"),
    }
}

/// What is read of a text, by the reader that a key names; none where it names none.
pub(crate) fn shown(alloc: Global, key: &[u8], text: &[u8]) -> Result<Option<Vec<u8>>> {
    if matches!(key, b"printed") {
        return Ok(Some(printed(alloc, text)?));
    }
    if !matches!(key, b"tokens" | b"expression" | b"declarations") {
        return Ok(None);
    }
    let read = match scanned(alloc, text)? {
        Ok(read) => read,
        Err(why) => return Ok(Some(why.into_bytes())),
    };
    let mut out = String::new(alloc);
    match key {
        b"tokens" => show_tokens(&mut out, &read)?,
        b"declarations" => show_decls(alloc, &mut out, &read)?,
        _ => show_expression(alloc, &mut out, &read)?,
    }
    Ok(Some(out.into_bytes()))
}
