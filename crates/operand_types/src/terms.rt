// The term that an expression is.

ghost use Rattle.std.specs.Prelude.{◌≡◌, [], option_map, map, drop};
ghost use Rattle.vale_syntax.specs.inner.CodeTrees.{tree as ex, exs};
ghost use Rattle.name_scopes.specs.Expressions.{name_alone};
ghost use Rattle.term_core.specs.Functions.{functions};
ghost use Rattle.term_core.specs.Terms.{tree};
ghost use Rattle.operand_types.specs.TermIn.{sort_at, name_term, term_of, terms_of, forall_of, range_of, over, over_range, over_arguments, is_all, known_in, with_bound};
ghost use Rattle.operand_types.specs.Operations.{call_term};
ghost use Rattle.operand_types.specs.Answers.{Makes};
ghost use Rattle.operand_types.specs.inner.Walks.{known, view, Lists};
ghost use Rattle.vale_syntax.specs.Trees.{Call};

use crate::bound::Bound;
use crate::fault::TermFault;
use crate::few::{Few, counted};
use crate::functions::{Found, are_fit, function_named};
use crate::names::Names;
use crate::operations::{all, bin, binary, one, three, two, unary};
use crate::parts;
use sqlite_items::Items;
use std::alloc::Global;
use term_core::{BinOp, Fun, Funs, Operator, Term, operator_of};
use vale_syntax::{Expr, Name};
use x64_syntax::{Sort, Text, built_in_named};

const PREV: &[u8] = b"prev";

/// What terms are over.
#[derive(Drop)]
struct Over<'a, N> {
    alloc: Global,
    names: &'a N,
    funs: &'a [Fun],
}

// A call of a function.
fn call(alloc: Global, found: Option<Found<'_>>, args: Items<Term>) -> Result<Term, TermFault>
    ensures { Makes result (call_term (option_map view found.entry) (map tree args)) }
{
    match found {
        None => Err(TermFault::Unfit),
        Some(found) => {
            if !are_fit(args.as_slice(), found.fun.params.as_slice()) {
                return Err(TermFault::Unfit);
            }
            Ok(Term::Call(found.number, found.fun.result, args))
        }
    }
}

fn is_all(op: Operator) -> bool
    ensures { result ≡ is_all op }
{
    matches!(op, Operator::All)
}

// An operator over its arguments.
#[tactic(auto, using(crate::proofs::Counting::none_over))]
fn operated(alloc: Global, op: Operator, terms: Items<Term>) -> Result<Term, TermFault>
    ensures { Makes result (over op (map tree terms)) }
{
    match counted(terms) {
        Few::One(a) => one(alloc, op, a),
        Few::Two(a, b) => two(alloc, op, a, b),
        Few::Three(a, b, c) => three(alloc, op, a, b, c),
        Few::Other => Err(TermFault::Unfit),
    }
}

// `forall` over a name, the range and what holds in it.
#[tactic(auto, using(crate::proofs::Counting::none_over_range))]
fn over_range(alloc: Global, name: &Text, terms: Items<Term>) -> Result<Term, TermFault>
    ensures { Makes result (over_range name.now (map tree terms)) }
{
    match counted(terms) {
        Few::Three(low, high, body) => all(alloc, name, low, high, body),
        _ => Err(TermFault::Unfit),
    }
}

// The name that an expression is.
fn name_alone(e: &Expr) -> Option<&Name>
    ensures { option_map (λ name. name.now) result ≡ name_alone (ex e.now) }
{
    match e {
        Expr::Name(name) => Some(name),
        _ => None,
    }
}

impl<'a, N: Names> Over<'a, N> {
    fn sort_at(&self, bound: &Bound<'_>, name: &[u8]) -> Option<Sort>
        ensures { result ≡ sort_at (known (N.sorts self.now.names.now) bound.now self.now.funs.now) name.now }
    {
        if bound.has(name) {
            Some(Sort::Int)
        } else {
            self.names.sort_of(name)
        }
    }

    fn name(&self, bound: &Bound<'_>, name: &[u8]) -> Result<Term, TermFault>
        ensures { Makes result (name_term name.now (sort_at (known (N.sorts self.now.names.now) bound.now self.now.funs.now) name.now)) }
    {
        match self.sort_at(bound, name) {
            None => Err(TermFault::Unfit),
            Some(sort) => Ok(Term::Name(Text::from_slice(self.alloc, name)?, sort)),
        }
    }

    #[cycle(terms)]
    #[tactic(auto, unfolding(crate::specs::TermIn::term_of))]
    fn term(&self, bound: &Bound<'_>, e: &Expr) -> Result<Term, TermFault>
        ensures { Makes result (term_of (known (N.sorts self.now.names.now) bound.now self.now.funs.now) (ex e.now)) }
    {
        match e {
            Expr::Int(_, z) => Ok(Term::Int(*z)),
            Expr::Word(_, n) => Ok(Term::W64(*n)),
            Expr::Wide(_, n) => Ok(Term::W128(*n)),
            Expr::True(_) => Ok(Term::Bool(true)),
            Expr::False(_) => Ok(Term::Bool(false)),
            Expr::Prev(_) => self.name(bound, PREV),
            Expr::Name(name) => self.name(bound, name.text.as_bytes()),
            Expr::Call(name, args) => self.call(bound, name, args.as_slice()),
            Expr::Index(_, x, i) => {
                let x = self.term(bound, x.get())?;
                let (x, i) = parts::two(x, self.term(bound, i.get()))?;
                bin(self.alloc, BinOp::Index, x, i)
            }
            Expr::Unary(_, op, a) => unary(self.alloc, *op, self.term(bound, a.get())?),
            Expr::Binary(_, op, a, b) => {
                let a = self.term(bound, a.get())?;
                let (a, b) = parts::two(a, self.term(bound, b.get()))?;
                binary(self.alloc, *op, a, b)
            }
        }
    }

    #[cycle(terms)]
    #[tactic(auto, unfolding(crate::specs::TermIn::term_of))]
    fn call(&self, bound: &Bound<'_>, name: &Name, args: &[Expr]) -> Result<Term, TermFault>
        ensures { Makes result (term_of (known (N.sorts self.now.names.now) bound.now self.now.funs.now) (Call name.now (exs (map ex args.now)))) }
    {
        match built_in_named(name.text.as_bytes()) {
            None => {
                let args = self.list(bound, args)?;
                call(
                    self.alloc,
                    function_named(self.funs, name.text.as_bytes()),
                    args,
                )
            }
            Some(word) => match operator_of(word) {
                None => Err(TermFault::Unfit),
                Some(op) => self.operation(bound, op, args),
            },
        }
    }

    #[cycle(terms)]
    #[tactic(auto, unfolding(crate::specs::TermIn::terms_of), using(crate::proofs::Counting::list_step))]
    fn list(&self, bound: &Bound<'_>, args: &[Expr]) -> Result<Items<Term>, TermFault>
        ensures { Lists result (terms_of (known (N.sorts self.now.names.now) bound.now self.now.funs.now) (exs (map ex args.now))) }
    {
        let mut made = Items::new(self.alloc);
        for arg in args {
            made.push(self.term(bound, arg)?)?;
        }
        Ok(made)
    }

    // An operator that is written as a call.
    #[cycle(terms)]
    fn operation(&self, bound: &Bound<'_>, op: Operator, args: &[Expr]) -> Result<Term, TermFault>
        ensures { Makes result (over_arguments op (forall_of (known (N.sorts self.now.names.now) bound.now self.now.funs.now) (exs (map ex args.now))) (terms_of (known (N.sorts self.now.names.now) bound.now self.now.funs.now) (exs (map ex args.now)))) }
    {
        if is_all(op) {
            self.forall(bound, args)
        } else {
            let terms = self.list(bound, args)?;
            operated(self.alloc, op, terms)
        }
    }

    // `forall`, over its arguments.
    #[cycle(terms)]
    #[tactic(auto, unfolding(crate::specs::TermIn::forall_of))]
    fn forall(&self, bound: &Bound<'_>, args: &[Expr]) -> Result<Term, TermFault>
        ensures { Makes result (forall_of (known (N.sorts self.now.names.now) bound.now self.now.funs.now) (exs (map ex args.now))) }
    {
        match args {
            [] => Err(TermFault::Unfit),
            [first, ..] => match name_alone(first) {
                None => Err(TermFault::Unfit),
                Some(name) => {
                    if self.sort_at(bound, name.text.as_bytes()).is_some() {
                        return Err(TermFault::Unfit);
                    }
                    let terms = self.range(bound, name, args)?;
                    over_range(self.alloc, &name.text, terms)
                }
            },
        }
    }

    // The arguments of `forall` behind the name.
    #[cycle(terms)]
    #[tactic(auto, unfolding(crate::specs::TermIn::range_of), using(crate::proofs::Counting::range_step))]
    fn range(&self, bound: &Bound<'_>, name: &Name, args: &[Expr]) -> Result<Items<Term>, TermFault>
        ensures { Lists result (range_of (known (N.sorts self.now.names.now) bound.now self.now.funs.now) name.now.text 1 (exs (map ex (drop 1 args.now)))) }
    {
        let mut made = Items::new(self.alloc);
        for number in 1..args.len() {
            made.push(self.argument(bound, name, number, &args[number])?)?;
        }
        Ok(made)
    }

    // The argument of `forall` of a number from 0.
    #[cycle(terms)]
    fn argument(
        &self,
        bound: &Bound<'_>,
        name: &Name,
        number: usize,
        e: &Expr,
    ) -> Result<Term, TermFault>
        ensures { Makes result (term_of (known_in (known (N.sorts self.now.names.now) bound.now self.now.funs.now) name.now.text number) (ex e.now)) }
    {
        if number == 3 {
            self.inner(bound, name, e)
        } else {
            self.term(bound, e)
        }
    }

    // What knows the name that `forall` binds.
    #[cycle(terms)]
    #[tactic(auto, using(crate::proofs::Binding::texts_name))]
    fn inner(&self, bound: &Bound<'_>, name: &Name, body: &Expr) -> Result<Term, TermFault>
        ensures { Makes result (term_of (with_bound (known (N.sorts self.now.names.now) bound.now self.now.funs.now) name.now.text) (ex body.now)) }
    {
        self.term(&Bound::Name(name.text.as_bytes(), &*bound), body)
    }
}

/// The term that an expression is, over names with their sorts and over functions.
///
/// `forall` binds a name that is none of them and isn't bound around it, as an `int`. `prev` is the name `prev`.
pub fn term_in<N: Names>(alloc: Global, e: &Expr, f: &Funs, names: &N) -> Result<Term, TermFault>
    ensures { Makes result (term_of (record { sorts = N.sorts names.now; bound = []; functions = functions f.now }) (ex e.now)) }
{
    let over = Over {
        alloc,
        names,
        funs: f.as_slice(),
    };
    over.term(&Bound::Nothing, e)
}
