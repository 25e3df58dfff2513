// The texts of terms.

use sqlite_items::{Boxed, Items};
use std::alloc::{AllocError, Global};
use std::test::Fail;
use term_core::{BinOp, CountedOp, Funs, Term, UnOp, print_term};
use x64_syntax::{Sort, Text};

type Made = Result<Term, AllocError>;

// Parts in boxes.
fn boxes<T: Drop>(
    alloc: Global,
    a: Result<T, AllocError>,
    b: Result<T, AllocError>,
) -> Result<(Boxed<T>, Boxed<T>), AllocError> {
    let a = Boxed::new(alloc, a?)?;
    Ok((a, Boxed::new(alloc, b?)?))
}

fn three_boxes<T: Drop>(
    alloc: Global,
    a: Result<T, AllocError>,
    b: Result<T, AllocError>,
    c: Result<T, AllocError>,
) -> Result<(Boxed<T>, Boxed<T>, Boxed<T>), AllocError> {
    let (a, b) = boxes(alloc, a, b)?;
    Ok((a, b, Boxed::new(alloc, c?)?))
}

fn name(alloc: Global, text: &str, sort: Sort) -> Made {
    let text = Text::from_slice(alloc, text.as_bytes())?;
    Ok(Term::Name(text, sort))
}

fn un(alloc: Global, op: UnOp, a: Made) -> Made {
    Ok(Term::Un(op, Boxed::new(alloc, a?)?))
}

fn bin(alloc: Global, op: BinOp, a: Made, b: Made) -> Made {
    let (a, b) = boxes(alloc, a, b)?;
    Ok(Term::Bin(op, a, b))
}

fn choice(alloc: Global, c: Made, a: Made, b: Made) -> Made {
    let (c, a, b) = three_boxes(alloc, c, a, b)?;
    Ok(Term::Ite(c, a, b))
}

fn put(alloc: Global, x: Made, i: Made, w: Made) -> Made {
    let (x, i, w) = three_boxes(alloc, x, i, w)?;
    Ok(Term::Put(x, i, w))
}

fn put_dword(alloc: Global, x: Made, j: Made, w: Made) -> Made {
    let (x, j, w) = three_boxes(alloc, x, j, w)?;
    Ok(Term::PutDword(x, j, w))
}

fn all(alloc: Global, text: Text, low: Made, high: Made, body: Made) -> Made {
    let (low, high, body) = three_boxes(alloc, low, high, body)?;
    Ok(Term::All(text, low, high, body))
}

fn product(alloc: Global, a: Made, b: Made) -> Made {
    let (a, b) = boxes(alloc, a, b)?;
    Ok(Term::Clmul(a, b, 16))
}

fn shifted(alloc: Global, a: Made) -> Made {
    Ok(Term::Shift(CountedOp::Rol, 63, Boxed::new(alloc, a?)?))
}

fn text_of(alloc: Global, t: Made) -> Result<Text, AllocError> {
    let t = t?;
    print_term(alloc, &Funs::new(alloc), &t)
}

#[test]
fn prints_an_equation(rt: HostRuntime) -> Result<(), Fail> {
    let alloc = rt.alloc();
    let number = un(alloc, UnOp::Int, name(alloc, "rax.0", Sort::W64));
    let test = bin(alloc, BinOp::Le, Ok(Term::Int(1 << 64)), number);
    let bit = choice(alloc, test, Ok(Term::Int(1)), Ok(Term::Int(0)));
    let text = text_of(
        alloc,
        bin(alloc, BinOp::Eq, name(alloc, "cf.1", Sort::Int), bit),
    )?;
    let want = b"(cf.1 == ite((18446744073709551616 <= int(rax.0)), 1, 0))";
    assert_eq!(rt; text.as_bytes(), want.as_slice());
    Ok(())
}

#[test]
fn prints_a_quantifier(rt: HostRuntime) -> Result<(), Fail> {
    let alloc = rt.alloc();
    let word = bin(
        alloc,
        BinOp::Index,
        name(alloc, "x", Sort::Arr),
        name(alloc, "i", Sort::Int),
    );
    let body = un(
        alloc,
        UnOp::LogicNot,
        bin(alloc, BinOp::Eq, word, Ok(Term::W64(5))),
    );
    let low = un(alloc, UnOp::Neg, Ok(Term::Int(-1)));
    let high = un(alloc, UnOp::Len, name(alloc, "x", Sort::Arr));
    let text = text_of(
        alloc,
        all(alloc, Text::from_slice(alloc, b"i")?, low, high, body),
    )?;
    assert_eq!(rt;
        text.as_bytes(),
        b"forall(i, -(-1), len(x), !(x[i] == 5w))".as_slice()
    );
    Ok(())
}

#[test]
fn prints_a_store(rt: HostRuntime) -> Result<(), Fail> {
    let alloc = rt.alloc();
    let stored = put(
        alloc,
        name(alloc, "x", Sort::Arr),
        Ok(Term::Call(0, Sort::Int, Items::new(alloc))),
        shifted(alloc, Ok(Term::W64(5))),
    );
    let low = un(
        alloc,
        UnOp::Lo,
        product(alloc, Ok(Term::W128(6)), Ok(Term::W128(7))),
    );
    let text = text_of(alloc, put_dword(alloc, stored, Ok(Term::Int(0)), low))?;
    let want = b"putdword(put(x, (), rol(5w, 63)), 0, lo(clmul(6v, 7v, 16)))";
    assert_eq!(rt; text.as_bytes(), want.as_slice());
    Ok(())
}
