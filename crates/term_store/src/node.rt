// Terms whose parts are numbers.

use crate::number::{Parts, TermId};
use term_core::{BinOp, CountedOp, UnOp};
use x64_syntax::{Sort, Text};

/// A term's constructor, with a number for each part.
#[derive(Debug, Drop, PartialEq, Eq)]
#[derive_where(Hash)]
pub enum Node {
    Name(Text, #[derive_where(skip(Hash))] Sort),
    Int(i128),
    W64(u64),
    W128(u128),
    Bool(bool),
    Un(#[derive_where(skip(Hash))] UnOp, TermId),
    Bin(#[derive_where(skip(Hash))] BinOp, TermId, TermId),
    Ite(TermId, TermId, TermId),
    Put(TermId, TermId, TermId),
    PutDword(TermId, TermId, TermId),
    Clmul(TermId, TermId, u8),
    Shift(#[derive_where(skip(Hash))] CountedOp, u8, TermId),
    Call(u32, #[derive_where(skip(Hash))] Sort, Parts),
    All(Text, TermId, TermId, TermId),
}
