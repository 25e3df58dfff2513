// The words of the command line.

ghost use Rattle.std.specs.Prelude.{◌≡◌, IfSome};
ghost use Rattle.std.specs.Option.{option_map};
ghost use Rattle.vale_driver.specs.Words.{once, with_option, is_option, no_options, read_options, is_gas, is_build_command, is_read_command, is_eval_command, one_file, build_form, read_form, eval_form, form, is_value, are_files, is_number, step_count, texts};
ghost use Rattle.vale_driver.specs.inner.Phases.{options_of, words_left, command_of, FewFiles};

use x64_syntax::is_digit;

/// The most source files.
const FILE_LIMIT: usize = 16;

/// The most steps of a run.
const STEP_LIMIT: u64 = 10_000_000;

/// The most digits of a number.
const DIGIT_LIMIT: usize = 20;

/// The files that a build's words name.
#[derive(Clone, Copy)]
pub(crate) struct BuildWords<'a> {
    pub(crate) cert: &'a str,
    pub(crate) files: &'a [String],
}

/// What the words of a run name.
#[derive(Clone, Copy)]
pub(crate) struct EvalWords<'a> {
    pub(crate) text: &'a str,
    pub(crate) entry: &'a str,
    pub(crate) state: &'a str,
    pub(crate) steps: u64,
}

/// What the words ask for.
#[derive(Clone, Copy)]
pub(crate) enum Command<'a> {
    Build(BuildWords<'a>),
    Read(&'a str),
    Eval(EvalWords<'a>),
}

// The values of the options.
#[derive(Clone, Copy)]
struct Options<'a> {
    syntax: Option<&'a str>,
    cert: Option<&'a str>,
    entry: Option<&'a str>,
    state: Option<&'a str>,
    steps: Option<&'a str>,
}

// A value that an option has not yet.
fn once<'a>(old: Option<&'a str>, value: &'a str) -> Option<&'a str>
    ensures { option_map (λ v. v.now) result ≡ once (option_map (λ v. v.now) old.entry) value.now }
{
    if old.is_none() && is_value(value) {
        Some(value)
    } else {
        None
    }
}

impl<'a> Options<'a> {
    fn with(self, name: &str, value: &'a str) -> Option<Self>
        ensures { option_map options_of result ≡ with_option (options_of self.entry) name.now value.now }
    {
        let mut options = self;
        match name {
            "--syntax" => options.syntax = Some(once(self.syntax, value)?),
            "--cert" => options.cert = Some(once(self.cert, value)?),
            "--entry" => options.entry = Some(once(self.entry, value)?),
            "--state" => options.state = Some(once(self.state, value)?),
            "--steps" => options.steps = Some(once(self.steps, value)?),
            _ => return None,
        }
        Some(options)
    }
}

fn is_option(word: &str) -> bool
    ensures { result ≡ is_option word.now }
{
    match word.as_bytes() {
        [first, ..] => *first == b'-',
        [] => false,
    }
}

// The options that stand first, and the words behind them.
fn read_options<'a>(
    options: Options<'a>,
    words: &'a [String],
) -> Option<(Options<'a>, &'a [String])>
    ensures { option_map words_left result ≡ read_options (options_of options.entry) (texts words.now) }
{
    let [word, rest @ ..] = words else {
        return Some((options, words));
    };
    if !is_option(word) {
        return Some((options, words));
    }
    if let Some((name, value)) = word.split_once('=') {
        return read_options(options.with(name, value)?, rest);
    }
    let [value, rest @ ..] = rest else {
        return None;
    };
    read_options(options.with(word, value)?, rest)
}

fn is_gas(syntax: Option<&str>) -> bool
    ensures { result ≡ is_gas (option_map (λ v. v.now) syntax.entry) }
{
    match syntax {
        Some(syntax) => syntax == "gas",
        None => false,
    }
}

impl Options<'_> {
    fn is_build(self) -> bool
        ensures { result ≡ is_build_command (options_of self.entry) }
    {
        if !is_gas(self.syntax) || self.entry.is_some() {
            return false;
        }
        self.state.is_none() && self.steps.is_none()
    }

    fn is_read(self) -> bool
        ensures { result ≡ is_read_command (options_of self.entry) }
    {
        self.cert.is_none() && self.is_build()
    }

    fn is_eval(self) -> bool
        ensures { result ≡ is_eval_command (options_of self.entry) }
    {
        is_gas(self.syntax) && self.cert.is_none()
    }
}

fn one_file(files: &[String]) -> Option<&str>
    ensures { option_map (λ v. v.now) result ≡ one_file (texts files.now) }
{
    match files {
        [file] if is_value(file) => Some(file),
        _ => None,
    }
}

fn build_words<'a>(options: Options<'a>, files: &'a [String]) -> Option<Command<'a>>
    ensures form { option_map command_of result ≡ build_form (options_of options.entry) (texts files.now) }
    ensures few { IfSome result FewFiles }
{
    if !options.is_build() {
        return None;
    }
    let cert = options.cert?;
    if are_files(files) {
        Some(Command::Build(BuildWords { cert, files }))
    } else {
        None
    }
}

fn list_words<'a>(options: Options<'a>, files: &'a [String]) -> Option<Command<'a>>
    ensures form { option_map command_of result ≡ read_form (options_of options.entry) (texts files.now) }
    ensures few { IfSome result FewFiles }
{
    if !options.is_read() {
        return None;
    }
    Some(Command::Read(one_file(files)?))
}

fn eval_words<'a>(options: Options<'a>, files: &'a [String]) -> Option<Command<'a>>
    ensures form { option_map command_of result ≡ eval_form (options_of options.entry) (texts files.now) }
    ensures few { IfSome result FewFiles }
{
    if !options.is_eval() {
        return None;
    }
    let text = one_file(files)?;
    let entry = options.entry?;
    let state = options.state?;
    let steps = step_count(options.steps?)?;
    Some(Command::Eval(EvalWords {
        text,
        entry,
        state,
        steps,
    }))
}

/// What the words ask for: see docs/COMMANDS.md.
pub(crate) fn read_words(words: &[String]) -> Option<Command<'_>>
    ensures form { option_map command_of result ≡ form (texts words.now) }
    ensures few { IfSome result FewFiles }
{
    let [command, rest @ ..] = words else {
        return None;
    };
    let none = Options {
        syntax: None,
        cert: None,
        entry: None,
        state: None,
        steps: None,
    };
    let (options, files) = read_options(none, rest)?;
    match command.as_str() {
        "build" => build_words(options, files),
        "read" => list_words(options, files),
        "eval" => eval_words(options, files),
        _ => None,
    }
}

fn are_files(files: &[String]) -> bool
    ensures { result ≡ are_files (texts files.now) }
{
    if files.is_empty() || FILE_LIMIT < files.len() {
        return false;
    }
    for file in files {
        if !is_value(file) {
            return false;
        }
    }
    true
}

// Whether a word can be an option's value or a file's name.
fn is_value(word: &str) -> bool
    ensures { result ≡ is_value word.now }
{
    match word.as_bytes() {
        [] => false,
        [first, ..] => *first != b'-',
    }
}

fn is_number(word: &[u8]) -> bool
    ensures { result ≡ is_number word.now }
{
    if word.is_empty() || DIGIT_LIMIT < word.len() {
        return false;
    }
    for byte in word {
        if !is_digit(*byte) {
            return false;
        }
    }
    true
}

fn step_count(word: &str) -> Option<u64>
    ensures { result ≡ step_count word.now }
{
    if !is_number(word.as_bytes()) {
        return None;
    }
    let steps = word.parse::<u64>().ok()?;
    if steps <= STEP_LIMIT {
        Some(steps)
    } else {
        None
    }
}
