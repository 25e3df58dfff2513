// The names that are free in a term.

ghost use Rattle.std.specs.Prelude.{◌≡◌, map, IfOk, OnOk};
ghost use Rattle.term_core.specs.Terms.{tree, tms};
ghost use Rattle.term_core.specs.Terms as tm;
ghost use Rattle.term_subst.specs.Free.{is_bound_by, free_inside, free_among, free_names};
ghost use Rattle.term_subst.specs.inner.Walks.{names_around, names_found, with_names};

use indexmap::IndexSet;
use std::alloc::{AllocError as NoMemory, Global};
use term_core::Term;
use x64_syntax::{Sort, Text};

// A walk through a term.
#[derive(Drop)]
struct Finder<'a> {
    /// The names that quantifiers around the place bind, the outermost first.
    around: Vec<&'a [u8]>,
    /// The free names so far.
    found: IndexSet<&'a [u8]>,
}

// Whether one of the quantifiers over these names binds the variable.
fn is_bound_by(names: &[&[u8]], text: &[u8], sort: Sort) -> bool
    ensures { result ≡ is_bound_by (map (λ name. name.now) names.now) text.now sort }
{
    for name in names {
        if *name == text && sort == Sort::Int {
            return true;
        }
    }
    false
}

impl<'a> Finder<'a> {
    // Takes in a variable.
    fn take(&mut self, text: &'a Text, sort: Sort) -> Result<(), NoMemory>
        ensures found { OnOk result (names_found self.new ≡ with_names (names_found self.old) (free_inside (names_around self.old) (tm.Name text.now sort))) }
        ensures around { OnOk result (names_around self.new ≡ names_around self.old) }
    {
        let text = text.as_bytes();
        if !is_bound_by(&self.around, text, sort) {
            self.found.insert(text)?;
        }
        Ok(())
    }

    #[cycle(walk)]
    fn walk(&mut self, t: &'a Term) -> Result<(), NoMemory>
        ensures found { OnOk result (names_found self.new ≡ with_names (names_found self.old) (free_inside (names_around self.old) (tree t.now))) }
        ensures around { OnOk result (names_around self.new ≡ names_around self.old) }
    {
        match t {
            Term::Name(text, sort) => self.take(text, *sort),
            Term::Int(_) | Term::W64(_) | Term::W128(_) | Term::Bool(_) => Ok(()),
            Term::Un(_, a) | Term::Shift(_, _, a) => self.walk(a.get()),
            Term::Bin(_, a, b) | Term::Clmul(a, b, _) => {
                self.walk(a.get())?;
                self.walk(b.get())
            }
            Term::Ite(a, b, c) | Term::Put(a, b, c) | Term::PutDword(a, b, c) => {
                self.walk(a.get())?;
                self.walk(b.get())?;
                self.walk(c.get())
            }
            Term::Call(_, _, args) => self.walk_all(args.as_slice()),
            Term::All(name, low, high, body) => {
                self.walk(low.get())?;
                self.walk(high.get())?;
                self.around.push(name.as_bytes())?;
                self.walk(body.get())?;
                self.around.pop();
                Ok(())
            }
        }
    }

    #[cycle(walk)]
    fn walk_all(&mut self, args: &'a [Term]) -> Result<(), NoMemory>
        ensures found { OnOk result (names_found self.new ≡ with_names (names_found self.old) (free_among (names_around self.old) (tms (map tree args.now)))) }
        ensures around { OnOk result (names_around self.new ≡ names_around self.old) }
    {
        for arg in args {
            self.walk(arg)?;
        }
        Ok(())
    }
}

// The texts once more.
fn copy_texts(alloc: Global, texts: &[&[u8]]) -> Result<Vec<Text>, NoMemory>
    ensures { IfOk result (λ copies. copies.items ≡ map (λ text. text.now) texts.now) }
{
    let mut copies = Vec::new(alloc);
    for text in texts {
        copies.push(Text::from_slice(alloc, text)?)?;
    }
    Ok(copies)
}

/// The names that are free in a term, each once, in the order in which they stand there first.
pub fn free_names(alloc: Global, t: &Term) -> Result<Vec<Text>, NoMemory>
    ensures { IfOk result (λ names. names.items ≡ free_names (tree t.now)) }
{
    let mut finder = Finder {
        around: Vec::new(alloc),
        found: IndexSet::new(alloc),
    };
    finder.walk(t)?;
    copy_texts(alloc, finder.found.as_slice())
}
