//! The source language: tokens and trees, the definitions of which tokens a text has and which trees tokens spell, and
//! the text of an expression.
//!
//! The definitions are `specs/Tokens.antt`, `Expressions.antt`, `Statements.antt` and `Declarations.antt`.
//! `table_of_marks`: the code's table of marks is the definitions'. `longest_mark`: the first mark of the table that
//! begins a text is the longest that does. `limits_of_numbers`: the limits of numbers are the definitions'.
//! `spelled_once`: no list of tokens spells two expressions. `read_as_spelled`: looking ahead finds exactly what is
//! spelled. `print_expr`: the text's tokens spell the tree, for each tree that some text spells (`printed_as_spelled`).
#![tactic(auto)]

mod declaration;
mod expr;
mod fault;
mod laws;
mod lookahead;
mod mark;
mod print;
mod spot;
mod statement;
mod token;

pub use declaration::{
    AbiName, Bind, Clause, Decl, Direction, KindName, LemmaClause, Param, ReadPlace,
};
pub use expr::{Expr, Name};
pub use fault::{MatchFault, Spotted};
pub use laws::{
    limits_of_numbers, longest_mark, printed_as_spelled, read_as_spelled, spelled_once,
    table_of_marks,
};
pub use lookahead::{Lookahead, is_mark, peek};
pub use mark::{BinaryOp, MARKS, Mark, UnaryOp};
pub use print::print_expr;
pub use spot::Spot;
pub use statement::{Arg, LemmaStmt, SortName, Stmt};
pub use token::{Front, NotAToken, Token, TokenKind, WHOLE_LIMIT, WORD_LIMIT};
