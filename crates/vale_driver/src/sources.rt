// The sources of a build: their bytes, their tokens and their declarations, each phase over all files.

ghost use Rattle.std.specs.Prelude.{◌≡◌, ◌≤◌, ◌<◌, ◌^◌, ℕ, List, length, map, slice_get, Some, codes, IsTrue, IfOk, IfErr};
ghost use Rattle.std.specs.List.{AllByRecursion};
ghost use Rattle.vale_syntax.specs.inner.CodeTrees.{decl_tree};
ghost use Rattle.straight_line.specs.inner.Fits.{IsStraight};
ghost use Rattle.vale_outside.specs.Outside.{Rose};
ghost use Rattle.vale_driver.specs.Causes as cause;
ghost use Rattle.vale_driver.specs.Causes.{refusal_of};
ghost use Rattle.vale_driver.specs.Sources.{FirstOf, IsShort, HasTokens, LacksToken};
ghost use Rattle.vale_driver.specs.Words.{texts};
ghost use Rattle.vale_driver.specs.inner.Phases.{source_views, lex_stop, scan, scan_view, Opened, Parsed, Parses, Unparsed};
ghost use Rattle.vale_driver.specs.inner.Stops.{StopsBy, SourcesSpell, SourcesRefused};

use crate::cause::{Cause, refusal_of};
use crate::status::Refusal;
use crate::stop::{Stop, fetch};
use std::alloc::{AllocError, Global};
use straight_line::{StraightLine, straight_line};
use vale_lexer::{LexFault, tokens};
use vale_outside::Store;
use vale_parser::{ParseFault, read_decls};
use vale_syntax::{Decl, MatchFault, NotAToken, Token};

/// The most bytes of a source file.
const SOURCE_LIMIT: usize = 1048576;

/// A source file: its number from 0, its name and its bytes.
#[derive(Drop)]
pub(crate) struct Source<'a> {
    number: u32,
    name: &'a str,
    bytes: Vec<u8>,
}

/// The tokens of a source file.
#[derive(Drop)]
pub(crate) struct Scanned<'a> {
    name: &'a str,
    tokens: Vec<Token>,
}

fn fetch_all<'a, S: Store>(
    alloc: Global,
    store: &mut S,
    files: &'a [String],
) -> Result<Vec<Source<'a>>, Stop>
    requires few { length files.now < 2 ^ 32 }
    requires askable { AllByRecursion (λ f. IsTrue (S.may_ask store.old f)) (texts files.now) }
    ensures opened { IfOk result (λ v. Opened (S.tells store.old) (texts files.now) (source_views v.items)) }
    ensures stops { IfErr result (StopsBy (SourcesRefused (S.tells store.old) (texts files.now)) (Rose (S.faults store.old) (S.faults store.new))) }
    ensures count { S.faults store.old ≤ S.faults store.new }
    ensures same_names { (n : List ℕ) → S.may_ask store.new n ≡ S.may_ask store.old n }
    ensures same_files { (n : List ℕ) → S.tells store.new n ≡ S.tells store.old n }
{
    let mut sources = Vec::new(alloc);
    for (number, file) in files.iter().enumerate() {
        let Some(bytes) = fetch(alloc, store, file, SOURCE_LIMIT)? else {
            let refusal = refusal_of(alloc, Cause::TooLong(file))?;
            return Err(Stop::Refused(refusal));
        };
        sources.push(Source {
            number: number as u32,
            name: file,
            bytes,
        })?;
    }
    Ok(sources)
}

// The answer to a text without tokens.
fn lex_stop(alloc: Global, file: &str, fault: LexFault) -> Result<Stop, AllocError>
    ensures { IfOk result (λ s. s ≡ lex_stop file.now fault) }
{
    let cause = match fault {
        LexFault::BadByte { at } => Cause::NoToken(file, at, NotAToken::BadByte),
        LexFault::NumberTooLarge { at } => Cause::NoToken(file, at, NotAToken::NumberTooLarge),
        LexFault::OpenComment { at } => Cause::NoToken(file, at, NotAToken::OpenComment),
        LexFault::NoMemory => return Ok(Stop::NoMemory),
    };
    Ok(Stop::Refused(refusal_of(alloc, cause)?))
}

fn scan_all<'a>(alloc: Global, sources: &[Source<'a>]) -> Result<Vec<Scanned<'a>>, Stop>
    requires { AllByRecursion IsShort (source_views sources.now) }
    ensures scanned { IfOk result (λ v. map scan_view v.items ≡ map scan (source_views sources.now)) }
    ensures stops { IfErr result (StopsBy (FirstOf HasTokens LacksToken (source_views sources.now)) ⊥) }
{
    let mut scanned = Vec::new(alloc);
    for source in sources {
        match tokens(alloc, source.number, &source.bytes) {
            Ok(tokens) => scanned.push(Scanned {
                name: source.name,
                tokens,
            })?,
            Err(fault) => return Err(lex_stop(alloc, source.name, fault)?),
        }
    }
    Ok(scanned)
}

fn parse_all<'a>(alloc: Global, scanned: &[Scanned<'a>]) -> Result<Vec<Decl>, Stop>
    ensures parsed { IfOk result (λ v. Parsed scanned.now (map decl_tree v.items)) }
    ensures stops { IfErr result (StopsBy (FirstOf Parses Unparsed scanned.now) ⊥) }
{
    let mut decls = Vec::new(alloc);
    for source in scanned {
        match read_decls(alloc, &source.tokens) {
            Ok(mut read) => decls.append(&mut read)?,
            Err(ParseFault::NotADecl { first }) => {
                let cause = Cause::NoDeclaration(source.name, first.at);
                let refused = refusal_of(alloc, cause)?;
                return Err(Stop::Refused(refused));
            }
            Err(ParseFault::NoMemory) => return Err(Stop::NoMemory),
        }
    }
    Ok(decls)
}

// The refusal of sources of no form that is built, which names the first.
fn no_form(alloc: Global, files: &[String]) -> Result<Refusal, AllocError>
    ensures { IfOk result (λ r. r ≡ refusal_of (cause.NoForm (slice_get (texts files.now) 0))) }
{
    match files {
        [] => refusal_of(alloc, Cause::NoForm(None)),
        [first, ..] => refusal_of(alloc, Cause::NoForm(Some(first))),
    }
}

/// The procedure that the source files are together.
pub(crate) fn read_sources<S: Store>(
    alloc: Global,
    store: &mut S,
    files: &[String],
) -> Result<StraightLine, Stop>
    requires few { length files.now < 2 ^ 32 }
    requires askable { AllByRecursion (λ f. IsTrue (S.may_ask store.old f)) (texts files.now) }
    ensures fits { IfOk result IsStraight }
    ensures found { IfOk result (SourcesSpell (S.tells store.old) (texts files.now)) }
    ensures stops { IfErr result (StopsBy (SourcesRefused (S.tells store.old) (texts files.now)) (Rose (S.faults store.old) (S.faults store.new))) }
    ensures count { S.faults store.old ≤ S.faults store.new }
    ensures same_names { (n : List ℕ) → S.may_ask store.new n ≡ S.may_ask store.old n }
    ensures same_files { (n : List ℕ) → S.tells store.new n ≡ S.tells store.old n }
{
    let sources = fetch_all(alloc, store, files)?;
    let scanned = scan_all(alloc, &sources)?;
    let decls = parse_all(alloc, &scanned)?;
    match straight_line(alloc, &decls) {
        Ok(program) => Ok(program),
        Err(MatchFault::NoMatch) => Err(Stop::Refused(no_form(alloc, files)?)),
        Err(MatchFault::NoMemory) => Err(Stop::NoMemory),
    }
}
