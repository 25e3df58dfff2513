// Functions of sources, and lists of them that obey the rules.

ghost use Rattle.std.specs.Prelude.{◌≡◌, ◌++◌, ◌∷◌, [], ◌↔◌, Some, OnOk, OnErr};
ghost use Rattle.term_core.specs.Functions.{function, functions};
ghost use Rattle.term_core.specs.Rules.{broken_rule};
ghost use Rattle.term_core.specs.declared.functions.BrokenRule.{BrokenRule as ARule};

use crate::rules::broken_rule;
use crate::term::Term;
use sqlite_items::Items;
use std::alloc::Global;
use std::marker::Model;
use x64_syntax::{Sort, Text};

/// A name with its sort.
#[derive(Debug, Drop, PartialEq, Eq)]
pub struct Variable {
    pub name: Text,
    pub sort: Sort,
}

/// A function of a source.
#[derive(Debug, Drop)]
pub struct Fun {
    pub name: Text,
    pub params: Items<Variable>,
    pub result: Sort,
    /// Of a recursive function: what it is worth where its last argument is 0 or less.
    pub zero_part: Option<Term>,
    /// What it is worth; in a recursive function the name `prev` is its value where the last argument is one less.
    pub body: Term,
}

/// Which rule a function breaks.
#[derive(Clone, Copy, Debug, PartialEq, Eq, Drop)]
pub enum BrokenRule {
    /// It has a built-in name.
    BuiltIn,
    /// Another function has its name.
    NameTwice,
    /// Two of its parameters have one name.
    ParamTwice,
    /// A parameter is called `prev`.
    ParamPrev,
    /// It is recursive, and its last parameter isn't an `int`.
    LastParam,
    /// A part isn't of the function's sort, or something in it isn't of the sort that it should be of; it may call
    /// earlier functions alone.
    Sorts,
    /// A free name of a part is neither a parameter nor, in the body of a recursive function, `prev`.
    FreeName,
}

/// Why a function isn't added.
#[derive(Clone, Copy, Debug, PartialEq, Eq, Drop)]
pub enum AddFunFault {
    /// It breaks a rule; this is the first one.
    Broken(BrokenRule),
    /// Memory ran out.
    NoMemory,
}

/// Functions, the earlier ones first. Each obeys the rules.
#[derive(Debug, Drop)]
pub struct Funs {
    items: Items<Fun>,
}

impl Model for Funs {
    ghost use Rattle.std.specs.Prelude.{List, [], ◌≡◌, true};
    ghost use Rattle.std.specs.Coded.{codes};
    ghost use Rattle.term_core.specs.contracts.term.Term as t;
    ghost use Rattle.term_core.specs.declared.functions.Fun.{Fun as AFun};
    ghost use Rattle.term_core.specs.Functions.{functions};
    ghost use Rattle.term_core.specs.Rules.{all_obey};

    ghost Value = { List AFun };

    ghost coded = { Prim.hlevel (codes, t.the_row.coded) };

    ghost view = { λ f. f.items };

    ghost invariant = { λ f. all_obey [] (functions f.items) ≡ true };
}

impl Funs {
    /// No functions.
    pub fn new(alloc: Global) -> Self
        ensures { result ≡ [] }
    {
        Funs {
            items: Items::from_vec(Vec::new(alloc)),
        }
    }

    /// The functions in their order.
    pub fn as_slice(&self) -> &[Fun]
        ensures { result.now ≡ self.now }
    {
        self.items.as_slice()
    }

    /// Adds a function behind the others, where it obeys the rules. A refusal changes nothing.
    #[tactic(auto, using(crate::proofs::Obeying::one_more_obeys))]
    pub fn add(&mut self, fun: Fun) -> Result<(), AddFunFault>
        ensures broken { (rule : ARule) → (result ≡ Err (AddFunFault.Broken rule)) ↔ (broken_rule (functions self.old) (function fun) ≡ Some rule) }
        ensures ok { OnOk result (self.new ≡ self.old ++ fun ∷ []) }
        ensures err { OnErr result (self.new ≡ self.old) }
    {
        match broken_rule(self.items.as_slice(), &fun) {
            Some(rule) => Err(AddFunFault::Broken(rule)),
            None => match self.items.push(fun) {
                Ok(()) => Ok(()),
                Err(_) => Err(AddFunFault::NoMemory),
            },
        }
    }
}
