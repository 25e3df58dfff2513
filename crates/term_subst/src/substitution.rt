// One term put for one variable.

ghost use Rattle.std.specs.Prelude.{◌≡◌, IfOk};
ghost use Rattle.term_core.specs.Terms.{tree};
ghost use Rattle.term_subst.specs.Substituted.{substituted};

use crate::images::{Image, Images};
use std::alloc::{AllocError as NoMemory, Global};
use term_core::{Term, sort_of};
use x64_syntax::Text;

/// The term with `by` put in place of each free variable of that name and of the sort of `by`. No bound name is changed:
/// values stay where no free name of `by` is bound in `t` (`substitution_keeps_values`).
pub fn substitute(alloc: Global, t: &Term, name: &Text, by: &Term) -> Result<Term, NoMemory>
    ensures { IfOk result (λ r. tree r ≡ substituted name.now (tree by.now) (tree t.now)) }
{
    let mut images = Images::new(alloc);
    images.push(Image {
        name: name.as_bytes(),
        sort: sort_of(by),
        term: Some(by),
    })?;
    images.put(t)
}
