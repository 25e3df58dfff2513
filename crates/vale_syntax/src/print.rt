// The text of an expression.

ghost use Rattle.std.specs.Prelude.{◌≡◌, ◌++◌, ℕ, true, map, codes, IfOk, OnOk};
ghost use Rattle.vale_syntax.specs.inner.CodeTrees.{tree, exs};
ghost use Rattle.vale_syntax.specs.inner.Print.{binary_text, unary_text, is_operand, separator, text, list_text, operand_text, IsWritable, IsTextOf};

use crate::expr::Expr;
use crate::laws::printed_as_spelled;
use crate::mark::{BinaryOp, UnaryOp};
use std::alloc::{AllocError as NoMemory, Global};
use x64_syntax::{Text, push, push_number};

/// The text of an expression. Operators have blanks around them, and brackets group what isn't an operand by itself. Its
/// tokens spell the expression, so reading the text gives it back but for the places of its nodes, where it is no deeper
/// than the grammar allows.
pub fn print_expr(alloc: Global, e: &Expr) -> Result<Text, NoMemory>
    requires { IsWritable (tree e.now) }
    ensures text { IfOk result (λ t. t ≡ text (tree e.now)) }
    ensures spelled { IfOk result (λ t. (file : ℕ) → IsTextOf file t (tree e.now)) }
{
    printed_as_spelled();
    let mut out = Vec::new(alloc);
    push_expr(&mut out, e)?;
    Ok(Text::from_vec(out))
}

impl BinaryOp {
    /// How the operator is written.
    pub fn text(self) -> &'static str
        ensures { result.now ≡ binary_text self }
    {
        match self {
            BinaryOp::Mul => "*",
            BinaryOp::Add => "+",
            BinaryOp::Sub => "-",
            BinaryOp::Eq => "==",
            BinaryOp::Ne => "!=",
            BinaryOp::Lt => "<",
            BinaryOp::Le => "<=",
            BinaryOp::Gt => ">",
            BinaryOp::Ge => ">=",
            BinaryOp::And => "&&",
            BinaryOp::Or => "||",
            BinaryOp::Implies => "==>",
        }
    }
}

impl UnaryOp {
    /// How the operator is written.
    pub fn text(self) -> &'static str
        ensures { result.now ≡ unary_text self }
    {
        match self {
            UnaryOp::Not => "!",
            UnaryOp::Neg => "-",
        }
    }
}

#[cycle(print)]
#[tactic(auto, unfolding(crate::specs::inner::Print::text))]
fn push_expr(out: &mut Vec<u8>, e: &Expr) -> Result<(), NoMemory>
    ensures { OnOk result (out.new.items ≡ out.old.items ++ text (tree e.now)) }
{
    match e {
        Expr::Int(_, value) => push_number(out, *value),
        Expr::Word(_, value) => {
            push_number(out, *value)?;
            push(out, "w")
        }
        Expr::Wide(_, value) => {
            push_number(out, *value)?;
            push(out, "v")
        }
        Expr::True(_) => push(out, "true"),
        Expr::False(_) => push(out, "false"),
        Expr::Prev(_) => push(out, "prev"),
        Expr::Name(name) => push_text(out, &name.text),
        Expr::Call(function, args) => {
            push_text(out, &function.text)?;
            push(out, "(")?;
            push_list(out, args.as_slice())?;
            push(out, ")")
        }
        Expr::Index(_, array, at) => {
            push_operand(out, array.get())?;
            push(out, "[")?;
            push_expr(out, at.get())?;
            push(out, "]")
        }
        Expr::Unary(_, op, inner) => {
            push(out, op.text())?;
            push(out, "(")?;
            push_expr(out, inner.get())?;
            push(out, ")")
        }
        Expr::Binary(_, op, left, right) => {
            push_operand(out, left.get())?;
            push_operator(out, *op)?;
            push_operand(out, right.get())
        }
    }
}

// An operand, with brackets where it needs them.
#[cycle(print)]
fn push_operand(out: &mut Vec<u8>, e: &Expr) -> Result<(), NoMemory>
    ensures { OnOk result (out.new.items ≡ out.old.items ++ operand_text (tree e.now)) }
{
    if is_operand(e) {
        return push_expr(out, e);
    }
    push(out, "(")?;
    push_expr(out, e)?;
    push(out, ")")
}

#[cycle(print)]
#[tactic(auto, unfolding(crate::specs::inner::Print::list_text))]
fn push_list(out: &mut Vec<u8>, list: &[Expr]) -> Result<(), NoMemory>
    ensures { OnOk result (out.new.items ≡ out.old.items ++ list_text true (exs (map tree list.now))) }
{
    let mut is_first = true;
    for e in list {
        push_separator(out, is_first)?;
        push_expr(out, e)?;
        is_first = false;
    }
    Ok(())
}

fn push_separator(out: &mut Vec<u8>, is_first: bool) -> Result<(), NoMemory>
    ensures { OnOk result (out.new.items ≡ out.old.items ++ separator is_first) }
{
    if is_first { Ok(()) } else { push(out, ", ") }
}

fn push_operator(out: &mut Vec<u8>, op: BinaryOp) -> Result<(), NoMemory>
    ensures { OnOk result (out.new.items ≡ out.old.items ++ (codes " " ++ binary_text op ++ codes " ")) }
{
    push(out, " ")?;
    push(out, op.text())?;
    push(out, " ")
}

// Whether an expression stands without brackets beside an operator.
fn is_operand(e: &Expr) -> bool
    ensures { result ≡ is_operand (tree e.now) }
{
    match e {
        Expr::Int(_, value) => 0 <= *value,
        Expr::Unary(_, _, _) | Expr::Binary(_, _, _, _) => false,
        _ => true,
    }
}

fn push_text(out: &mut Vec<u8>, text: &Text) -> Result<(), NoMemory>
    ensures { OnOk result (out.new.items ≡ out.old.items ++ text.now) }
{
    out.extend_from_slice(text.as_bytes())
}
