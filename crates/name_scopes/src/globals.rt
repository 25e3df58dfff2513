// The names that procedures, lemmas and functions share over all files.

ghost use Rattle.std.specs.Prelude.{◌≡◌, [], List, ℕ, map, Some, None, OnOk, IfOk, if◌then◌else◌};
ghost use Rattle.std.specs.Str.{bytes_eq};
ghost use Rattle.vale_syntax.specs.inner.CodeTrees.{decl_tree};
ghost use Rattle.name_scopes.specs.Globals.{kind_of, name_of, declares, declared};
ghost use Rattle.name_scopes.specs.Faults.{◌<|>◌};
ghost use Rattle.name_scopes.specs.inner.Walks.{table_of};

use indexmap::IndexMap;
use std::alloc::{AllocError as NoMemory, AllocFailed, Global};
use vale_syntax::{Decl, Name};

/// What a name of all files is declared as.
#[derive(Clone, Copy, Debug, PartialEq, Eq)]
pub enum GlobalKind {
    Procedure,
    Lemma,
    Function,
}

/// The declaration that a name stands for: its kind, and its number among all declarations, from 0.
#[derive(Clone, Copy, Debug, PartialEq, Eq)]
pub struct GlobalDecl {
    pub kind: GlobalKind,
    pub number: usize,
}

/// Which declarations names stand for.
#[derive(Debug, Drop)]
pub(crate) struct Globals<'a> {
    table: IndexMap<&'a [u8], GlobalDecl>,
}

/// The name that a declaration gives.
pub(crate) fn name_of(decl: &Decl) -> &Name
    ensures { result.now ≡ name_of (decl_tree decl.now) }
{
    match decl {
        Decl::Procedure(_, name, _, _, _) => name,
        Decl::Lemma(_, name, _, _, _) => name,
        Decl::Function(_, name, _, _, _, _) => name,
        Decl::Export(_, name, _, _) => name,
    }
}

fn kind_of(decl: &Decl) -> Option<GlobalKind>
    ensures { result ≡ kind_of (decl_tree decl.now) }
{
    match decl {
        Decl::Procedure(_, _, _, _, _) => Some(GlobalKind::Procedure),
        Decl::Lemma(_, _, _, _, _) => Some(GlobalKind::Lemma),
        Decl::Function(_, _, _, _, _, _) => Some(GlobalKind::Function),
        Decl::Export(_, _, _, _) => None,
    }
}

impl<'a> Globals<'a> {
    fn new(alloc: Global) -> Self
        ensures { result.table.entries ≡ [] }
    {
        Globals {
            table: IndexMap::new(alloc),
        }
    }

    /// The declaration that a name stands for.
    pub(crate) fn get(&self, name: &[u8]) -> Option<GlobalDecl>
        ensures { result ≡ table_of self.now name.now }
    {
        match self.table.get(name) {
            Some(global) => Some(*global),
            None => None,
        }
    }

    // Adds a declaration of a name, where it is the first.
    fn add(&mut self, name: &'a [u8], global: GlobalDecl) -> Result<(), NoMemory>
        ensures { OnOk result ((n : List ℕ) → table_of self.new n ≡ table_of self.old n <|> (if bytes_eq n name.now then Some global else None)) }
    {
        if !self.table.contains_key(name) {
            self.table.insert(name, global)?;
        }
        Ok(())
    }
}

// Adds what a declaration declares.
fn note<'a>(globals: &mut Globals<'a>, number: usize, decl: &'a Decl) -> Result<(), NoMemory>
    ensures { OnOk result ((n : List ℕ) → table_of globals.new n ≡ table_of globals.old n <|> declares number (decl_tree decl.now) n) }
{
    match kind_of(decl) {
        Some(kind) => globals.add(name_of(decl).text.as_bytes(), GlobalDecl { kind, number }),
        None => Ok(()),
    }
}

// Adds the declarations to none.
#[tactic(auto, unfolding(crate::specs::Globals::declared_from))]
fn fill<'a>(globals: &mut Globals<'a>, decls: &'a [Decl]) -> Result<(), NoMemory>
    requires { globals.old.table.entries ≡ [] }
    ensures { OnOk result (table_of globals.new ≡ declared (map decl_tree decls.now)) }
{
    let mut number = 0;
    for decl in decls {
        note(globals, number, decl)?;
        number += 1;
    }
    Ok(())
}

/// Which declarations the names of all of them stand for.
pub(crate) fn globals_of<'a>(alloc: Global, decls: &'a [Decl]) -> Result<Globals<'a>, NoMemory>
    ensures { IfOk result (λ g. table_of g ≡ declared (map decl_tree decls.now)) }
{
    let mut globals = Globals::new(alloc);
    fill(&mut globals, decls)?;
    Ok(globals)
}
