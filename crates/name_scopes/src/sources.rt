// Whole sources.

ghost use Rattle.std.specs.Prelude.{◌≡◌, map, [], true, Err, IfOk, OnOk};
ghost use Rattle.vale_syntax.specs.inner.CodeTrees.{decl_tree};
ghost use Rattle.name_scopes.specs.Globals.{name_of, declared};
ghost use Rattle.name_scopes.specs.Declarations.{decl_fault};
ghost use Rattle.name_scopes.specs.Sources.{Tells, refused, no_export, with_export, decls_fault, first_fault, IsScoped};
ghost use Rattle.name_scopes.specs.inner.Walks.{table_of, is_new_export};

use crate::declarations::declaration;
use crate::fault::{ScopeFault, Stop};
use crate::globals::{GlobalDecl, Globals, globals_of, name_of};
use crate::text_set::TextSet;
use std::alloc::{AllocError, Global};
use vale_syntax::{Decl, Spot, Spotted};
use x64_syntax::Text;

/// Declarations of which each name is bound by the rules, and what the names of all files stand for.
#[derive(Debug, Drop)]
pub struct Scoped<'a> {
    decls: &'a [Decl],
    globals: Globals<'a>,
    pub ghost scoped: { IsScoped (map decl_tree decls.now) },
    pub ghost stands: { table_of globals ≡ declared (map decl_tree decls.now) },
}

impl<'a> Scoped<'a> {
    /// The declarations, as they were given.
    pub fn decls(&self) -> &'a [Decl]
        ensures given { result.now ≡ self.now.decls.now }
        ensures scoped { IsScoped (map decl_tree result.now) }
    {
        self.decls
    }

    /// The declaration that a name of a procedure, lemma or function stands for.
    pub fn global(&self, name: &[u8]) -> Option<GlobalDecl>
        ensures { result ≡ declared (map decl_tree self.now.decls.now) name.now }
    {
        self.globals.get(name)
    }
}

// The first fault of a declaration, with the declaration's name.
fn judge<'a>(
    alloc: Global,
    globals: &Globals<'a>,
    exports: &TextSet<'a>,
    number: usize,
    decl: &'a Decl,
) -> Result<(), Spotted<ScopeFault>>
    ensures { Tells result (refused (name_of (decl_tree decl.now)).text (decl_fault (table_of globals.now) exports.now number (decl_tree decl.now))) }
{
    match declaration(alloc, globals, exports, number, decl) {
        Ok(()) => Ok(()),
        Err(Stop::Fault(spot, cause)) => Err(Spotted::Refused {
            who: Text::from_slice(alloc, name_of(decl).text.as_bytes())?,
            spot,
            cause,
        }),
        Err(Stop::NoMemory) => Err(Spotted::NoMemory),
    }
}

// Adds the name of an export.
fn note_export<'a>(exports: &mut TextSet<'a>, decl: &'a Decl) -> Result<(), AllocError>
    requires { is_new_export exports.old (decl_tree decl.now) ≡ true }
    ensures { OnOk result (exports.new ≡ with_export exports.old (decl_tree decl.now)) }
{
    if let Decl::Export(_, name, _, _) = decl {
        exports.add(name.text.as_bytes())?;
    }
    Ok(())
}

// What is told at the end, behind exports of those names.
fn end(alloc: Global, exports: &TextSet<'_>) -> Result<(), Spotted<ScopeFault>>
    ensures { Tells result (no_export exports.now) }
{
    if exports.len() != 0 {
        return Ok(());
    }
    Err(Spotted::Refused {
        who: Text::from_vec(Vec::new(alloc)),
        spot: Spot { file: 0, at: 0 },
        cause: ScopeFault::NoExport,
    })
}

// The declarations, one behind the other.
#[tactic(auto, unfolding(crate::specs::Sources::decls_fault))]
fn walk<'a>(
    alloc: Global,
    globals: &Globals<'a>,
    decls: &'a [Decl],
) -> Result<(), Spotted<ScopeFault>>
    ensures { Tells result (decls_fault (table_of globals.now) [] 0 (map decl_tree decls.now)) }
{
    let mut exports = TextSet::new(alloc);
    let mut number = 0;
    for decl in decls {
        judge(alloc, globals, &exports, number, decl)?;
        note_export(&mut exports, decl)?;
        number += 1;
    }
    end(alloc, &exports)
}

/// Looks up each name of the declarations.
///
/// The first fault is told in the order of the tokens: where it stands, and the declaration that it lies in (`who`); that
/// nothing is exported comes behind all others, without a name and at a place of zeros.
#[tactic(auto, unfolding(crate::specs::Sources::first_fault))]
pub fn resolve<'a>(alloc: Global, decls: &'a [Decl]) -> Result<Scoped<'a>, Spotted<ScopeFault>>
    ensures ok { IfOk result (λ s. s.decls.now ≡ decls.now) }
    ensures first { Tells result (first_fault (map decl_tree decls.now)) }
{
    let globals = globals_of(alloc, decls)?;
    walk(alloc, &globals, decls)?;
    Ok(Scoped { decls, globals })
}
