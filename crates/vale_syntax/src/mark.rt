// Marks and operators.

ghost use Rattle.std.specs.Prelude.{◌≡◌};
ghost use Rattle.vale_syntax.specs.Operators.{rank_of, right_of, again_of};

/// An operator between two expressions.
#[derive(Clone, Copy, Debug, PartialEq, Eq)]
pub enum BinaryOp {
    /// `*`
    Mul,
    /// `+`
    Add,
    /// `-`
    Sub,
    /// `==`
    Eq,
    /// `!=`
    Ne,
    /// `<`
    Lt,
    /// `<=`
    Le,
    /// `>`
    Gt,
    /// `>=`
    Ge,
    /// `&&`
    And,
    /// `||`
    Or,
    /// `==>`
    Implies,
}

/// An operator before an expression.
#[derive(Clone, Copy, Debug, PartialEq, Eq)]
pub enum UnaryOp {
    /// `!`
    Not,
    /// `-`
    Neg,
}

/// A mark.
#[derive(Clone, Copy, Debug, PartialEq, Eq)]
pub enum Mark {
    /// `(`
    RoundOpen,
    /// `)`
    RoundClose,
    /// `[`
    SquareOpen,
    /// `]`
    SquareClose,
    /// `{`
    BraceOpen,
    /// `}`
    BraceClose,
    /// `,`
    Comma,
    /// `;`
    Semicolon,
    /// `:`
    Colon,
    /// `=`
    Equals,
    /// `:=`
    Assign,
    /// `!`
    Bang,
    /// `@`
    At,
    /// One of the operators between two expressions.
    Binary(BinaryOp),
}

/// The marks, with how each is written. A mark stands before those that it begins with, so that the first that fits is
/// the longest.
pub const MARKS: [(&str, Mark); 25] = [
    ("==>", Mark::Binary(BinaryOp::Implies)),
    (":=", Mark::Assign),
    ("==", Mark::Binary(BinaryOp::Eq)),
    ("!=", Mark::Binary(BinaryOp::Ne)),
    ("<=", Mark::Binary(BinaryOp::Le)),
    (">=", Mark::Binary(BinaryOp::Ge)),
    ("&&", Mark::Binary(BinaryOp::And)),
    ("||", Mark::Binary(BinaryOp::Or)),
    ("(", Mark::RoundOpen),
    (")", Mark::RoundClose),
    ("[", Mark::SquareOpen),
    ("]", Mark::SquareClose),
    ("{", Mark::BraceOpen),
    ("}", Mark::BraceClose),
    (",", Mark::Comma),
    (";", Mark::Semicolon),
    (":", Mark::Colon),
    ("=", Mark::Equals),
    ("<", Mark::Binary(BinaryOp::Lt)),
    (">", Mark::Binary(BinaryOp::Gt)),
    ("+", Mark::Binary(BinaryOp::Add)),
    ("-", Mark::Binary(BinaryOp::Sub)),
    ("*", Mark::Binary(BinaryOp::Mul)),
    ("!", Mark::Bang),
    ("@", Mark::At),
];

impl BinaryOp {
    /// How loosely the operator binds, from 1 for `*` to 6 for `==>`: the lower binds first.
    pub fn rank(self) -> u8
        ensures { result ≡ rank_of self }
    {
        match self {
            BinaryOp::Mul => 1,
            BinaryOp::Add | BinaryOp::Sub => 2,
            BinaryOp::Eq
            | BinaryOp::Ne
            | BinaryOp::Lt
            | BinaryOp::Le
            | BinaryOp::Gt
            | BinaryOp::Ge => 3,
            BinaryOp::And => 4,
            BinaryOp::Or => 5,
            BinaryOp::Implies => 6,
        }
    }

    /// The rank of what stands to the right of the operator: `==>` groups to the right.
    pub fn right(self) -> u8
        ensures { result ≡ right_of self }
    {
        match self {
            BinaryOp::Implies => BinaryOp::Implies.rank(),
            _ => self.rank() - 1,
        }
    }

    /// The rank of the operators that may follow such an operation without brackets: chains go on, and behind a relation
    /// or `==>` there is none.
    pub fn again(self) -> u8
        ensures { result ≡ again_of self }
    {
        match self {
            BinaryOp::Mul | BinaryOp::Add | BinaryOp::Sub | BinaryOp::And | BinaryOp::Or =>
                self.rank(),
            _ => 0,
        }
    }
}
