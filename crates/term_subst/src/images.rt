// Terms put for free variables, all at once.

ghost use Rattle.std.specs.Prelude.{◌≡◌, ◌++◌, ◌∷◌, [], map, option_map, IfOk, OnOk};
ghost use Rattle.term_core.specs.Terms.{tree, tms};
ghost use Rattle.term_core.specs.Terms as tm;
ghost use Rattle.term_subst.specs.Substituted.{or_else, with_images, all_with_images};
ghost use Rattle.term_subst.specs.inner.Walks.{images_of};

use crate::copies::copy;
use crate::parts::{copy_text, part, quantifier, three, two, with};
use sqlite_items::Items;
use std::alloc::{AllocError as NoMemory, Global};
use term_core::Term;
use x64_syntax::{Sort, Text};

/// What is put for a variable.
#[derive(Clone, Copy)]
pub(crate) struct Image<'a> {
    pub(crate) name: &'a [u8],
    pub(crate) sort: Sort,
    /// Nothing where the variable stays.
    pub(crate) term: Option<&'a Term>,
}

// What keeps the variable that a quantifier over the name binds.
fn hidden(name: &Text) -> Image<'_>
    ensures name { result.name.now ≡ name.now }
    ensures sort { result.sort ≡ Sort.Int }
    ensures term { result.term ≡ None }
{
    Image {
        name: name.as_bytes(),
        sort: Sort::Int,
        term: None,
    }
}

// What is put for a variable by the last of the images that are for it.
fn image_among<'a>(images: &[Image<'a>], text: &[u8], sort: Sort) -> Option<&'a Term>
    ensures { option_map (λ t. tree t.now) result ≡ images_of images.now text.now sort }
{
    let mut found = None;
    for image in images {
        if image.name == text && image.sort == sort {
            found = image.term;
        }
    }
    found
}

/// A walk through a term that puts terms for its variables.
#[derive(Drop)]
pub(crate) struct Images<'a> {
    alloc: Global,
    /// What is put; of two images for one variable the later one counts.
    images: Vec<Image<'a>>,
}

impl<'a> Images<'a> {
    /// Nothing is put for any variable.
    pub(crate) fn new(alloc: Global) -> Self
        ensures { result.images.items ≡ [] }
    {
        Images {
            alloc,
            images: Vec::new(alloc),
        }
    }

    /// Puts this in place of what was put for the variable so far.
    pub(crate) fn push(&mut self, image: Image<'a>) -> Result<(), NoMemory>
        ensures { OnOk result (self.new.images.items ≡ self.old.images.items ++ image.entry ∷ []) }
    {
        self.images.push(image)?;
        Ok(())
    }

    // A variable, or what is put for it.
    fn name(&self, text: &Text, sort: Sort) -> Result<Term, NoMemory>
        ensures { IfOk result (λ r. tree r ≡ or_else (images_of self.now.images.items text.now sort) (tm.Name text.now sort)) }
    {
        match image_among(&self.images, text.as_bytes(), sort) {
            Some(t) => copy(self.alloc, t),
            None => Ok(Term::Name(copy_text(self.alloc, text)?, sort)),
        }
    }

    /// A term with what is put for its free variables.
    #[cycle(put)]
    pub(crate) fn put(&mut self, t: &'a Term) -> Result<Term, NoMemory>
        ensures ok { IfOk result (λ r. tree r ≡ with_images (images_of self.old.images.items) (tree t.now)) }
        ensures kept { OnOk result (self.new.images.items ≡ self.old.images.items) }
    {
        let alloc = self.alloc;
        match t {
            Term::Name(text, sort) => self.name(text, *sort),
            Term::Int(z) => Ok(Term::Int(*z)),
            Term::W64(n) => Ok(Term::W64(*n)),
            Term::W128(n) => Ok(Term::W128(*n)),
            Term::Bool(b) => Ok(Term::Bool(*b)),
            Term::Un(op, a) => Ok(Term::Un(*op, part(alloc, self.put(a.get()))?)),
            Term::Shift(op, n, a) => Ok(Term::Shift(*op, *n, part(alloc, self.put(a.get()))?)),
            Term::Bin(op, a, b) => {
                let a = part(alloc, self.put(a.get()))?;
                let (a, b) = two(alloc, a, self.put(b.get()))?;
                Ok(Term::Bin(*op, a, b))
            }
            Term::Clmul(a, b, n) => {
                let a = part(alloc, self.put(a.get()))?;
                let (a, b) = two(alloc, a, self.put(b.get()))?;
                Ok(Term::Clmul(a, b, *n))
            }
            Term::Ite(a, b, c) => {
                let a = part(alloc, self.put(a.get()))?;
                let front = two(alloc, a, self.put(b.get()))?;
                let (a, b, c) = three(alloc, front, self.put(c.get()))?;
                Ok(Term::Ite(a, b, c))
            }
            Term::Put(a, b, c) => {
                let a = part(alloc, self.put(a.get()))?;
                let front = two(alloc, a, self.put(b.get()))?;
                let (a, b, c) = three(alloc, front, self.put(c.get()))?;
                Ok(Term::Put(a, b, c))
            }
            Term::PutDword(a, b, c) => {
                let a = part(alloc, self.put(a.get()))?;
                let front = two(alloc, a, self.put(b.get()))?;
                let (a, b, c) = three(alloc, front, self.put(c.get()))?;
                Ok(Term::PutDword(a, b, c))
            }
            Term::Call(k, sort, args) => {
                Ok(Term::Call(*k, *sort, self.put_all(args.as_slice())?))
            }
            Term::All(name, low, high, body) => {
                let low = part(alloc, self.put(low.get()))?;
                let front = two(alloc, low, self.put(high.get()))?;
                let (front, ()) = with(front, self.push(hidden(name)))?;
                let parts = three(alloc, front, self.put(body.get()))?;
                self.images.pop();
                quantifier(alloc, name, parts)
            }
        }
    }

    #[cycle(put)]
    fn put_all(&mut self, args: &'a [Term]) -> Result<Items<Term>, NoMemory>
        ensures ok { IfOk result (λ r. tms (map tree r) ≡ all_with_images (images_of self.old.images.items) (tms (map tree args.now))) }
        ensures kept { OnOk result (self.new.images.items ≡ self.old.images.items) }
    {
        let mut made = Items::new(self.alloc);
        for arg in args {
            made.push(self.put(arg)?)?;
        }
        Ok(made)
    }
}
