// The words that a source may not use as names of its own.

ghost use Rattle.std.specs.Prelude.{◌≡◌, ◌||◌};
ghost use Rattle.std.specs.List.{list_all, list_any};
ghost use Rattle.x64_syntax.specs.Names.{same_text, some_has_name};
ghost use Rattle.x64_syntax.specs.Operations.{operations, operation_name, gas_mnemonic, masm_mnemonic};
ghost use Rattle.x64_syntax.specs.Tables.{keywords, type_words, built_in, other_mnemonics, assembler_words};
ghost use Rattle.x64_syntax.specs.Words.{is_word_among, is_in_table, is_place_word, is_digit_byte, is_letter_byte, is_name_byte, is_name_text, is_numbered_word, is_mnemonic_word, is_reserved_word, is_reserved_name, is_refused_export, is_export_text};

use crate::built_in::BUILT_IN;
use crate::keywords::KEYWORDS;
use crate::names::Named;
use crate::operations::Operation;
use crate::places::{FlagName, Reg, Xmm};
use crate::type_words::TYPE_WORDS;

/// Whether upper and lower case are told apart.
#[derive(Clone, Copy, Debug, PartialEq, Eq)]
pub(crate) enum Case {
    Exact,
    Ignored,
}

/// The mnemonics that no instruction of the table has: of a move of a constant, jumps, and the end.
pub(crate) const OTHER_MNEMONICS: [&str; 9] = [
    "movabsq", "jmp", "je", "jne", "jb", "jbe", "ja", "jae", "ret",
];

/// Further words that an assembler may read otherwise.
pub(crate) const ASSEMBLER_WORDS: [&str; 77] = [
    "al", "ah", "ax", "eax", "bl", "bh", "bx", "ebx", "cl", "ch", "cx", "ecx", "dl", "dh", "dx",
    "edx", "si", "esi", "di", "edi", "bp", "ebp", "sp", "esp", "byte", "word", "dword", "qword",
    "xmmword", "ptr", "offset", "proc", "endp", "end", "public", "extern", "include", "segment",
    "ends", "assume", "macro", "endm", "equ", "dup", "db", "dw", "dd", "dq", "mod", "eq", "ne",
    "lt", "le", "gt", "ge", "high", "low", "type", "this", "length", "size", "name", "title",
    "page", "org", "while", "for", "repeat", "option", "r8d", "r9d", "r10d", "r11d", "r12d",
    "r13d", "r14d", "r15d",
];

/// The longest export name.
pub(crate) const EXPORT_NAME_LIMIT: usize = 63;

/// Whether a text is a name: a letter or `_`, then letters, digits and `_`.
pub fn is_name(text: &[u8]) -> bool
    ensures { result ≡ is_name_text text.now }
{
    if text.is_empty() {
        return false;
    }
    is_letter(text[0]) && are_word_bytes(text)
}

/// Whether a name has a meaning of its own in a source, so that nothing may be declared under it.
pub fn is_reserved(name: &[u8]) -> bool
    ensures { result ≡ is_reserved_name name.now }
{
    is_reserved_in(Case::Exact, name)
}

/// Whether a text is a name that an export may have: at most 63 bytes, and, whatever the case of its letters,
/// neither reserved nor a word that an assembler may read otherwise.
#[tactic(auto, unfolding(crate::specs::Words::is_export_text))]
pub fn is_export_name(text: &[u8]) -> bool
    ensures { result ≡ is_export_text text.now }
{
    if EXPORT_NAME_LIMIT < text.len() {
        return false;
    }
    is_name(text) && !is_refused(text)
}

#[tactic(auto, unfolding(crate::specs::Words::is_refused_export))]
fn is_refused(name: &[u8]) -> bool
    ensures { result ≡ is_refused_export name.now }
{
    if is_reserved_in(Case::Ignored, name) || is_mnemonic(Case::Ignored, name) {
        return true;
    }
    is_assembler_word(Case::Ignored, name) || is_numbered(Case::Ignored, b"l", name)
}

#[tactic(auto, unfolding(crate::specs::Words::is_reserved_word))]
fn is_reserved_in(case: Case, name: &[u8]) -> bool
    ensures { result ≡ is_reserved_word case name.now }
{
    if is_keyword(case, name) || is_type_word(case, name) {
        return true;
    }
    if is_place(case, name) || is_built_in(case, name) {
        return true;
    }
    some_has_name::<Operation>(case, name) || is_numbered(case, b"slot", name)
}

#[tactic(auto, unfolding(crate::specs::Tables::keywords))]
fn is_keyword(case: Case, name: &[u8]) -> bool
    ensures { result ≡ is_in_table case keywords name.now }
{
    is_row(&KEYWORDS, case, name)
}

#[tactic(auto, unfolding(crate::specs::Tables::type_words))]
fn is_type_word(case: Case, name: &[u8]) -> bool
    ensures { result ≡ is_in_table case type_words name.now }
{
    is_row(&TYPE_WORDS, case, name)
}

#[tactic(auto, unfolding(crate::specs::Tables::built_in))]
fn is_built_in(case: Case, name: &[u8]) -> bool
    ensures { result ≡ is_in_table case built_in name.now }
{
    is_row(&BUILT_IN, case, name)
}

// Whether a row of a table has the name.
fn is_row<T>(rows: &[(&str, T)], case: Case, name: &[u8]) -> bool
    ensures { result ≡ list_any (λ row. same_text case row.0.now name.now) rows.now }
{
    rows.iter().any(|row| is_same(case, row.0.as_bytes(), name))
}

// Whether one of these things has the name.
fn some_has_name<T: Named>(case: Case, name: &[u8]) -> bool
    ensures { result ≡ some_has_name case T.name_of T.all name.now }
{
    T::all()
        .iter()
        .any(|thing| is_same(case, thing.name().as_bytes(), name))
}

// A register, an xmm register, a flag, or all flags.
fn is_place(case: Case, name: &[u8]) -> bool
    ensures { result ≡ is_place_word case name.now }
{
    if some_has_name::<Reg>(case, name) || some_has_name::<Xmm>(case, name) {
        return true;
    }
    some_has_name::<FlagName>(case, name) || is_same(case, b"flags", name)
}

// Whether an instruction has the mnemonic in GAS or in MASM syntax.
fn is_spelled(case: Case, name: &[u8]) -> bool
    ensures { result ≡ list_any (λ o. same_text case (gas_mnemonic o) name.now || same_text case (masm_mnemonic o) name.now) operations }
{
    Operation::all().iter().any(|operation| {
        is_same(case, operation.gas().as_bytes(), name)
            || is_same(case, operation.masm().as_bytes(), name)
    })
}

#[tactic(auto, unfolding(crate::specs::Tables::other_mnemonics))]
fn is_mnemonic(case: Case, name: &[u8]) -> bool
    ensures { result ≡ is_mnemonic_word case name.now }
{
    is_spelled(case, name) || is_among(&OTHER_MNEMONICS, case, name)
}

#[tactic(auto, unfolding(crate::specs::Tables::assembler_words))]
fn is_assembler_word(case: Case, name: &[u8]) -> bool
    ensures { result ≡ is_word_among case assembler_words name.now }
{
    is_among(&ASSEMBLER_WORDS, case, name)
}

/// Whether a byte is a decimal digit.
pub fn is_digit(byte: u8) -> bool
    ensures { result ≡ is_digit_byte byte }
{
    b'0' <= byte && byte <= b'9'
}

fn are_digits(bytes: &[u8]) -> bool
    ensures { result ≡ list_all is_digit_byte bytes.now }
{
    bytes.iter().all(|byte| is_digit(*byte))
}

fn is_letter(byte: u8) -> bool
    ensures { result ≡ is_letter_byte byte }
{
    (b'a' <= byte && byte <= b'z') || (b'A' <= byte && byte <= b'Z') || byte == b'_'
}

/// Whether a byte may stand in a name behind its first.
pub fn is_name_part(byte: u8) -> bool
    ensures { result ≡ is_name_byte byte }
{
    is_letter(byte) || is_digit(byte)
}

fn are_word_bytes(bytes: &[u8]) -> bool
    ensures { result ≡ list_all is_name_byte bytes.now }
{
    bytes.iter().all(|byte| is_name_part(*byte))
}

// Whether a word is the prefix and then one or more digits.
fn is_numbered(case: Case, prefix: &[u8], word: &[u8]) -> bool
    ensures { result ≡ is_numbered_word case prefix.now word.now }
{
    if word.len() <= prefix.len() {
        return false;
    }
    let (front, rest) = word.split_at(prefix.len());
    is_same(case, front, prefix) && are_digits(rest)
}

fn is_among(words: &[&str], case: Case, name: &[u8]) -> bool
    ensures { result ≡ list_any (λ word. same_text case word.now name.now) words.now }
{
    words
        .iter()
        .any(|word| is_same(case, word.as_bytes(), name))
}

fn is_same(case: Case, a: &[u8], b: &[u8]) -> bool
    ensures { result ≡ same_text case a.now b.now }
{
    match case {
        Case::Exact => a == b,
        Case::Ignored => a.eq_ignore_ascii_case(b),
    }
}
