// Terms evaluated within a number of nodes.

ghost use Rattle.std.specs.Prelude.{◌≡◌, ◌≤◌, [], pos, Some, map};
ghost use Rattle.x64_syntax.specs.declared.type_words.Sort.TheVariants as sort;
ghost use Rattle.term_core.specs.Terms.{tree, tms};
ghost use Rattle.term_core.specs.Functions.{function, functions};
ghost use Rattle.term_core.specs.Literals.{literal_value};
ghost use Rattle.term_core.specs.Meaning.{with_last};
ghost use Rattle.term_core.specs.Value.{Whole, count};
ghost use Rattle.term_value.specs.Evaluation.{evaluate, evaluate_all, evaluate_fun, evaluate_turn, evaluate_turns, evaluations, between, evaluated, knowing, known_arguments};
ghost use Rattle.term_value.specs.Answers.{Answers};
ghost use Rattle.term_value.specs.inner.Courses.{known_of, opened, pair, triple, two_values, three_values, ComesTo};

use crate::fault::ValueFault;
use crate::known::{KnownNames, value_named};
use crate::parts::{
    Three, Two, and_true, at_most_0, bin, bounds, choice, clmul, counted, last_number, push, put,
    put_dword, set_last, un, with,
};
use std::alloc::Global;
use term_core::{Entry, Fun, Funs, Literal, Scope, Term, knows_free};
use x64_syntax::{Sort, Text};

// The name of the value at one less.
const PREV: &[u8] = b"prev";

// How many nodes may be entered.
const NODE_LIMIT: u32 = 1_000_000;

/// An evaluation.
#[derive(Drop)]
pub(crate) struct Evaluator {
    pub(crate) alloc: Global,
    /// How many more nodes may be entered.
    pub(crate) left: u32,
}

impl Evaluator {
    /// Enters a term.
    #[cycle(evaluation)]
    pub(crate) fn evaluate(
        &mut self,
        t: &Term,
        known: &KnownNames,
        funs: &[Fun],
    ) -> Result<Literal, ValueFault>
        ensures course { ComesTo literal_value (evaluate (evaluations (functions funs.now)) (known_of known.now) (tree t.now) self.old.left) result self.new.left }
        ensures left { self.new.left ≤ self.old.left }
    {
        if self.left == 0 {
            return Err(ValueFault::Long);
        }
        self.left -= 1;
        self.open(t, known, funs)
    }

    // Evaluates a term that is entered.
    #[cycle(evaluation)]
    fn open(&mut self, t: &Term, known: &KnownNames, funs: &[Fun]) -> Result<Literal, ValueFault>
        ensures course { ComesTo literal_value (opened (evaluations (functions funs.now)) (known_of known.now) (tree t.now) self.old.left) result self.new.left }
        ensures left { self.new.left ≤ self.old.left }
    {
        match t {
            Term::Name(name, sort) => value_named(self.alloc, known, name, *sort),
            Term::Int(z) => Ok(Literal::Int(*z)),
            Term::W64(n) => Ok(Literal::W64(*n)),
            Term::W128(n) => Ok(Literal::W128(*n)),
            Term::Bool(b) => Ok(Literal::Bool(*b)),
            Term::Un(op, a) => un(*op, self.evaluate(a.get(), known, funs)?),
            Term::Shift(op, n, a) => Ok(counted(*op, *n, self.evaluate(a.get(), known, funs)?)),
            Term::Bin(op, a, b) => bin(*op, self.two(a.get(), b.get(), known, funs)?),
            Term::Clmul(a, b, n) => Ok(clmul(self.two(a.get(), b.get(), known, funs)?, *n)),
            Term::Ite(c, a, b) => {
                Ok(choice(self.three(c.get(), a.get(), b.get(), known, funs)?))
            }
            Term::Put(x, i, w) => {
                let parts = self.three(x.get(), i.get(), w.get(), known, funs)?;
                Ok(put(self.alloc, parts))
            }
            Term::PutDword(x, j, w) => {
                let parts = self.three(x.get(), j.get(), w.get(), known, funs)?;
                Ok(put_dword(self.alloc, parts))
            }
            Term::Call(k, _, args) => {
                let args = self.evaluate_all(args.as_slice(), known, funs)?;
                self.call(*k, args, funs)
            }
            Term::All(name, low, high, body) => {
                let (low, high) = bounds(self.two(low.get(), high.get(), known, funs)?);
                self.instances(name, low, high, body.get(), known, funs)
            }
        }
    }

    // Two terms from left to right.
    #[cycle(evaluation)]
    #[tactic(auto, unfolding(crate::specs::inner::Courses::pair))]
    fn two(
        &mut self,
        a: &Term,
        b: &Term,
        known: &KnownNames,
        funs: &[Fun],
    ) -> Result<Two, ValueFault>
        ensures course { ComesTo two_values (pair (evaluate (evaluations (functions funs.now)) (known_of known.now) (tree a.now)) (evaluate (evaluations (functions funs.now)) (known_of known.now) (tree b.now)) self.old.left) result self.new.left }
        ensures left { self.new.left ≤ self.old.left }
    {
        let a = self.evaluate(a, known, funs)?;
        with(a, self.evaluate(b, known, funs))
    }

    // Three terms from left to right.
    #[cycle(evaluation)]
    #[tactic(auto, unfolding(crate::specs::inner::Courses::triple))]
    fn three(
        &mut self,
        a: &Term,
        b: &Term,
        c: &Term,
        known: &KnownNames,
        funs: &[Fun],
    ) -> Result<Three, ValueFault>
        ensures course { ComesTo three_values (triple (evaluate (evaluations (functions funs.now)) (known_of known.now) (tree a.now)) (evaluate (evaluations (functions funs.now)) (known_of known.now) (tree b.now)) (evaluate (evaluations (functions funs.now)) (known_of known.now) (tree c.now)) self.old.left) result self.new.left }
        ensures left { self.new.left ≤ self.old.left }
    {
        let front = self.two(a, b, known, funs)?;
        with(front, self.evaluate(c, known, funs))
    }

    // All terms from left to right.
    #[cycle(evaluation)]
    fn evaluate_all(
        &mut self,
        terms: &[Term],
        known: &KnownNames,
        funs: &[Fun],
    ) -> Result<Vec<Literal>, ValueFault>
        ensures course { ComesTo (λ values. map literal_value values.items) (evaluate_all (evaluations (functions funs.now)) (known_of known.now) [] (tms (map tree terms.now)) self.old.left) result self.new.left }
        ensures left { self.new.left ≤ self.old.left }
    {
        let mut values = Vec::new(self.alloc);
        for t in terms {
            push(&mut values, self.evaluate(t, known, funs)?)?;
        }
        Ok(values)
    }

    // Each instance of a formula between the bounds, the upper one left out.
    #[cycle(evaluation)]
    fn instances(
        &mut self,
        name: &Text,
        low: i128,
        high: i128,
        body: &Term,
        known: &KnownNames,
        funs: &[Fun],
    ) -> Result<Literal, ValueFault>
        ensures course { ComesTo literal_value (between (λ z. evaluate (evaluations (functions funs.now)) (knowing name.now sort.Int (Whole z) (known_of known.now)) (tree body.now)) low high self.old.left) result self.new.left }
        ensures left { self.new.left ≤ self.old.left }
    {
        let mut z = low;
        let mut all = true;
        while z < high {
            all = and_true(all, self.instance(name, z, body, known, funs)?);
            z += 1;
        }
        Ok(Literal::Bool(all))
    }

    // An instance of a formula.
    #[cycle(evaluation)]
    fn instance(
        &mut self,
        name: &Text,
        z: i128,
        body: &Term,
        known: &KnownNames,
        funs: &[Fun],
    ) -> Result<Literal, ValueFault>
        ensures course { ComesTo literal_value (evaluate (evaluations (functions funs.now)) (knowing name.now sort.Int (Whole z) (known_of known.now)) (tree body.now) self.old.left) result self.new.left }
        ensures left { self.new.left ≤ self.old.left }
    {
        let known = KnownNames::Number(name.as_bytes(), z, &*known);
        self.evaluate(body, &known, funs)
    }

    // A call of the function with the number.
    #[cycle(evaluation)]
    fn call(&mut self, k: u32, args: Vec<Literal>, funs: &[Fun]) -> Result<Literal, ValueFault>
        ensures course { ComesTo literal_value (evaluations (functions funs.now) k (map literal_value args.items) self.old.left) result self.new.left }
        ensures left { self.new.left ≤ self.old.left }
    {
        let k = k as usize;
        let mut args = args;
        if k < funs.len() {
            self.apply(&funs[k], &mut args, &funs[..k])
        } else {
            Ok(Literal::Int(0))
        }
    }

    // A function over the earlier ones. Where it is recursive, its last argument is changed.
    #[cycle(evaluation)]
    fn apply(
        &mut self,
        f: &Fun,
        args: &mut [Literal],
        earlier: &[Fun],
    ) -> Result<Literal, ValueFault>
        ensures course { ComesTo literal_value (evaluate_fun (evaluations (functions earlier.now)) (function f.now) (function f.now).zero_part (map literal_value args.old) self.old.left) result self.new.left }
        ensures left { self.new.left ≤ self.old.left }
    {
        match &f.zero_part {
            Some(zero) => self.recur(f, zero, args, earlier),
            None => {
                let params = KnownNames::Arguments(f.params.as_slice(), &*args);
                self.evaluate(&f.body, &params, earlier)
            }
        }
    }

    // A recursive function: its zero part, and then its turns.
    #[cycle(evaluation)]
    fn recur(
        &mut self,
        f: &Fun,
        zero: &Term,
        args: &mut [Literal],
        earlier: &[Fun],
    ) -> Result<Literal, ValueFault>
        ensures course { ComesTo literal_value (evaluate_fun (evaluations (functions earlier.now)) (function f.now) (Some (tree zero.now)) (map literal_value args.old) self.old.left) result self.new.left }
        ensures left { self.new.left ≤ self.old.left }
    {
        let last = last_number(args);
        let value = self.part(f, zero, at_most_0(last), args, earlier)?;
        self.turns(f, last, value, args, earlier)
    }

    // The zero part with that number as the last argument.
    #[cycle(evaluation)]
    fn part(
        &mut self,
        f: &Fun,
        zero: &Term,
        n: i128,
        args: &mut [Literal],
        earlier: &[Fun],
    ) -> Result<Literal, ValueFault>
        ensures course { ComesTo literal_value (evaluate (evaluations (functions earlier.now)) (known_arguments (function f.now).params (with_last (map literal_value args.old) n)) (tree zero.now) self.old.left) result self.new.left }
        ensures kept { map literal_value args.new ≡ with_last (map literal_value args.old) n }
        ensures left { self.new.left ≤ self.old.left }
    {
        set_last(args, n);
        let params = KnownNames::Arguments(f.params.as_slice(), &*args);
        self.evaluate(zero, &params, earlier)
    }

    // The turns up to the last one, with the value of the zero part.
    #[cycle(evaluation)]
    fn turns(
        &mut self,
        f: &Fun,
        last: i128,
        zero: Literal,
        args: &mut [Literal],
        earlier: &[Fun],
    ) -> Result<Literal, ValueFault>
        ensures course { ComesTo literal_value (evaluate_turns (evaluations (functions earlier.now)) (function f.now) (map literal_value args.old) (count last) (pos 1) (literal_value zero) self.old.left) result self.new.left }
        ensures left { self.new.left ≤ self.old.left }
    {
        let mut value = zero;
        let mut n = 0;
        while n < last {
            n += 1;
            value = self.turn(f, n, value, args, earlier)?;
        }
        Ok(value)
    }

    // The turn with that number, from the value of the turn before.
    #[cycle(evaluation)]
    fn turn(
        &mut self,
        f: &Fun,
        n: i128,
        before: Literal,
        args: &mut [Literal],
        earlier: &[Fun],
    ) -> Result<Literal, ValueFault>
        ensures course { ComesTo literal_value (evaluate_turn (evaluations (functions earlier.now)) (function f.now) (map literal_value args.old) n (literal_value before) self.old.left) result self.new.left }
        ensures kept { map literal_value args.new ≡ with_last (map literal_value args.old) n }
        ensures left { self.new.left ≤ self.old.left }
    {
        set_last(args, n);
        let params = KnownNames::Arguments(f.params.as_slice(), &*args);
        let known = KnownNames::Value(PREV, f.result, &before, &params);
        self.evaluate(&f.body, &known, earlier)
    }
}

/// The value of a term, where its free names have the values of their entries. All parts are evaluated from left to right:
/// both terms of a choice, all instances of a quantifier, also after a false one, the arguments of a call and then the
/// function's body, and of a recursive function its zero part and then its body for 1, 2 and so on up to the last argument.
/// It is the value of the term where the functions obey their rules and the term is well formed (`evaluation_is_value`).
/// Unbound comes first. Of Long and TooWide the one that is reached first comes.
pub fn value(alloc: Global, f: &Funs, t: &Term, entries: &[Entry]) -> Result<Literal, ValueFault>
    ensures { Answers (evaluated (functions f.now) entries.now (tree t.now)) result }
{
    if !knows_free(t, &Scope::Entries(entries)) {
        return Err(ValueFault::Unbound);
    }
    let mut evaluator = Evaluator {
        alloc,
        left: NODE_LIMIT,
    };
    evaluator.evaluate(t, &KnownNames::Entries(entries), f.as_slice())
}
