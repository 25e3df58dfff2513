// Files of cases: templates, and the rows that fill them.

use crate::answer::{Answer, answer_of};
use crate::commands::Run;
use crate::machines::machined;
use crate::scopes::scoped;
use crate::sources::shown;
use crate::texts::{Named, expanded};
use anyhow::{Result, bail};
use bstr::ByteSlice;
use std::alloc::Global;

/// ` → ` in UTF-8.
const ARROW: &[u8] = b" \xe2\x86\x92 ";

// A line of a template: `key value`, or `key name = value` where the key's lines have names.
#[derive(Clone, Copy)]
struct Line<'f> {
    key: &'f [u8],
    name: &'f [u8],
    value: &'f [u8],
}

#[derive(Drop)]
struct Script<'f> {
    texts: Vec<Named<'f>>,
    template: Vec<Line<'f>>,
    are_rows: bool,
    cases: u64,
    wrong: u64,
}

fn has_name(key: &[u8]) -> bool {
    matches!(key, b"file" | b"lines" | b"fails" | b"text")
}

fn line_of(text: &[u8]) -> Result<Line<'_>> {
    let Some((key, rest)) = text.split_once_str(b" ") else {
        bail!("no line of a template: {:?}", text.as_bstr());
    };
    if !has_name(key) {
        return Ok(Line {
            key,
            name: b"",
            value: rest,
        });
    }
    match rest.split_once_str(b" = ") {
        Some((name, value)) => Ok(Line { key, name, value }),
        None => bail!("no name and value: {:?}", text.as_bstr()),
    }
}

fn columns_of(alloc: Global, row: &[u8], texts: &[Named<'_>]) -> Result<Vec<Vec<u8>>> {
    let mut columns = Vec::new(alloc);
    for column in row.split_str(ARROW) {
        columns.push(expanded(alloc, column, &[], texts)?)?;
    }
    Ok(columns)
}

// What a case told, and what was found instead.
#[derive(Drop)]
struct Difference {
    wanted: Answer,
    found: Answer,
}

fn text_answer(alloc: Global, text: Vec<u8>) -> Answer {
    Answer {
        status: 0,
        out: text,
        err: Vec::new(alloc),
    }
}

// What is read of a text by the library call that a key names; none where it names none.
fn reading(alloc: Global, key: &[u8], text: &[u8]) -> Result<Option<Vec<u8>>> {
    if matches!(key, b"scopes") {
        return Ok(Some(scoped(alloc, text)?));
    }
    match shown(alloc, key, text)? {
        Some(text) => Ok(Some(text)),
        None => machined(alloc, key, text),
    }
}

// A case as far as it was read: its run, what it tells, and what was found by a library call.
#[derive(Drop)]
struct Case {
    run: Run,
    wanted: Option<Answer>,
    found: Option<Answer>,
}

impl Case {
    // Takes a line of the template, with the row's columns in it.
    fn take(
        &mut self,
        alloc: Global,
        line: Line<'_>,
        columns: &[Vec<u8>],
        texts: &[Named<'_>],
    ) -> Result<()> {
        let value = expanded(alloc, line.value, columns, texts)?;
        match line.key {
            b"answer" => self.wanted = Some(answer_of(alloc, &value)?),
            b"gives" => self.wanted = Some(text_answer(alloc, value)),
            key => match reading(alloc, key, &value)? {
                Some(text) => self.found = Some(text_answer(alloc, text)),
                None => {
                    let name = expanded(alloc, line.name, columns, texts)?;
                    self.run.take(alloc, line.key, &name, &value)?;
                }
            },
        }
        Ok(())
    }

    fn ends(&mut self, alloc: Global) -> Result<Answer> {
        match self.found.take() {
            Some(found) => Ok(found),
            None => self.run.ends(alloc),
        }
    }

    fn difference(&mut self, alloc: Global) -> Result<Option<Difference>> {
        let found = self.ends(alloc)?;
        let Some(wanted) = self.wanted.take() else {
            bail!("a template without an answer");
        };
        if found == wanted {
            Ok(None)
        } else {
            Ok(Some(Difference { wanted, found }))
        }
    }
}

// Tries a case: the template with the row's columns in it.
fn try_case(
    alloc: Global,
    template: &[Line<'_>],
    columns: &[Vec<u8>],
    texts: &[Named<'_>],
) -> Result<Option<Difference>> {
    let mut case = Case {
        run: Run::new(alloc),
        wanted: None,
        found: None,
    };
    for line in template {
        case.take(alloc, *line, columns, texts)?;
    }
    case.difference(alloc)
}

fn print_answer(rt: &impl Print, what: &str, answer: &Answer) -> Result<()> {
    let (out, err) = (
        answer.out.as_slice().as_bstr(),
        answer.err.as_slice().as_bstr(),
    );
    println!(rt; "  {what} {} {out:?} {err:?}", answer.status)?;
    Ok(())
}

impl<'f> Script<'f> {
    fn take(&mut self, rt: &impl Print, alloc: Global, text: &'f [u8], place: usize) -> Result<()> {
        if matches!(text, b"template") {
            self.template.clear();
            self.are_rows = false;
        } else if matches!(text, b"cases") {
            self.are_rows = true;
        } else if self.are_rows {
            self.take_row(rt, alloc, text, place)?;
        } else {
            self.take_line(alloc, text)?;
        }
        Ok(())
    }

    fn take_line(&mut self, alloc: Global, text: &'f [u8]) -> Result<()> {
        let line = line_of(text)?;
        if matches!(line.key, b"text") {
            let bytes = expanded(alloc, line.value, &[], &self.texts)?;
            let name = line.name;
            self.texts.push(Named { name, bytes })?;
        } else {
            self.template.push(line)?;
        }
        Ok(())
    }

    fn take_row(&mut self, rt: &impl Print, alloc: Global, row: &[u8], place: usize) -> Result<()> {
        let columns = columns_of(alloc, row, &self.texts)?;
        self.cases = self.cases.saturating_add(1);
        if let Some(difference) = try_case(alloc, &self.template, &columns, &self.texts)? {
            self.wrong = self.wrong.saturating_add(1);
            println!(rt; "line {place}: {:?}", row.as_bstr())?;
            print_answer(rt, "wanted", &difference.wanted)?;
            print_answer(rt, "found ", &difference.found)?;
        }
        Ok(())
    }
}

/// Tries the cases of a file, prints those that differ and how many there are, and gives how many differ.
pub(crate) fn try_file(rt: &impl Print, alloc: Global, name: &str, bytes: &[u8]) -> Result<u64> {
    let mut script = Script {
        texts: Vec::new(alloc),
        template: Vec::new(alloc),
        are_rows: false,
        cases: 0,
        wrong: 0,
    };
    for (number, line) in bytes.lines().enumerate() {
        if !line.is_empty() && !line.starts_with(b"# ") {
            script.take(rt, alloc, line, number.saturating_add(1))?;
        }
    }
    let (cases, wrong) = (script.cases, script.wrong);
    println!(rt; "{name}: {cases} cases, {wrong} differ")?;
    Ok(wrong)
}
