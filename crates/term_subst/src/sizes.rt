// How many nodes a term has.

ghost use Rattle.std.specs.Prelude.{◌≡◌, map};
ghost use Rattle.term_core.specs.Terms.{tree, tms};
ghost use Rattle.term_subst.specs.Sizes.{size, all_nodes, at_most_64_bits};

use term_core::Term;

/// The number of a term's nodes, or 2^64 - 1 where it has more.
#[cycle(size)]
pub fn size(t: &Term) -> u64
    ensures { result ≡ size (tree t.now) }
{
    match t {
        Term::Name(_, _) | Term::Int(_) | Term::W64(_) | Term::W128(_) | Term::Bool(_) => 1,
        Term::Un(_, a) | Term::Shift(_, _, a) => size(a.get()).saturating_add(1),
        Term::Bin(_, a, b) | Term::Clmul(a, b, _) => size(a.get())
            .saturating_add(size(b.get()))
            .saturating_add(1),
        Term::Ite(a, b, c) | Term::Put(a, b, c) | Term::PutDword(a, b, c) | Term::All(_, a, b, c) =>
            size(a.get())
                .saturating_add(size(b.get()))
                .saturating_add(size(c.get()))
                .saturating_add(1),
        Term::Call(_, _, args) => size_of_all(args.as_slice()).saturating_add(1),
    }
}

#[cycle(size)]
fn size_of_all(args: &[Term]) -> u64
    ensures { result ≡ at_most_64_bits (all_nodes (tms (map tree args.now))) }
{
    let mut total = 0u64;
    for arg in args {
        total = total.saturating_add(size(arg));
    }
    total
}
