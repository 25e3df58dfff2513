// The names that are known where a term stands.

ghost use Rattle.std.specs.Prelude.{◌≡◌, option_map, option_copied, map};
ghost use Rattle.term_core.specs.Literals.{literal_value};
ghost use Rattle.term_core.specs.Rules.{is_variable};
ghost use Rattle.term_value.specs.Evaluation.{known_arguments, known_value};
ghost use Rattle.term_value.specs.Answers.{Answers};
ghost use Rattle.term_value.specs.inner.Courses.{known_of};

use crate::fault::ValueFault;
use crate::literals::copy;
use std::alloc::Global;
use term_core::{Entry, Literal, Variable, value_of};
use x64_syntax::{Sort, Text};

/// Which names are known, and their values.
#[derive(Drop)]
pub(crate) enum KnownNames<'a> {
    /// Those of an environment.
    Entries(&'a [Entry]),
    /// The parameters of a function, with its arguments.
    Arguments(&'a [Variable], &'a [Literal]),
    /// One more, before others: what a quantifier binds.
    Number(&'a [u8], i128, &'a KnownNames<'a>),
    /// One more, before others.
    Value(&'a [u8], Sort, &'a Literal, &'a KnownNames<'a>),
}

// The name with the sort is that variable.
fn is_variable(v: &Variable, name: &Text, sort: Sort) -> bool
    ensures { result ≡ is_variable v.now name.now sort }
{
    v.name.as_bytes() == name.as_bytes() && v.sort == sort
}

// The argument of the first parameter of the name and the sort.
fn argument_of<'a>(
    params: &[Variable],
    args: &'a [Literal],
    name: &Text,
    sort: Sort,
) -> Option<&'a Literal>
    ensures { option_map literal_value (option_copied result) ≡ known_arguments params.now (map literal_value args.now) name.now sort }
{
    let count = params.len().min(args.len());
    for k in 0..count {
        if is_variable(&params[k], name, sort) {
            return Some(&args[k]);
        }
    }
    None
}

// A value that was found, once more.
fn copied(alloc: Global, found: Option<&Literal>) -> Result<Literal, ValueFault>
    ensures { Answers (known_value (option_map literal_value (option_copied found.entry))) result }
{
    match found {
        Some(a) => match copy(alloc, a) {
            Ok(a) => Ok(a),
            Err(_) => Err(ValueFault::NoMemory),
        },
        None => Err(ValueFault::Unbound),
    }
}

/// The value of a name of the sort.
pub(crate) fn value_named(
    alloc: Global,
    known: &KnownNames,
    name: &Text,
    sort: Sort,
) -> Result<Literal, ValueFault>
    ensures { Answers (known_value (known_of known.now name.now sort)) result }
{
    match known {
        KnownNames::Entries(entries) => copied(alloc, value_of(entries, name, sort)),
        KnownNames::Arguments(params, args) => copied(alloc, argument_of(params, args, name, sort)),
        KnownNames::Number(bound, z, outer) => {
            if *bound == name.as_bytes() && sort == Sort::Int {
                Ok(Literal::Int(*z))
            } else {
                value_named(alloc, outer, name, sort)
            }
        }
        KnownNames::Value(bound, of, a, outer) => {
            if *bound == name.as_bytes() && *of == sort {
                copied(alloc, Some(a))
            } else {
                value_named(alloc, outer, name, sort)
            }
        }
    }
}
