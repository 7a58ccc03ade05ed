//! Each list of up to four words of a table, read by the program and by a reading of its own.

use rule_convert::BackendName;
use sig_base::Text;
use sigma_serve::{Request, read_words};
use std::alloc::Global;
use std::process::Abort;
use std::test::Fail;

const TABLE: [&str; 20] = [
    "check",
    "convert",
    "run",
    "query",
    "correlate",
    "generate",
    "--backend",
    "--schema",
    "--seed",
    "--backend=lucene",
    "--schema=s=1",
    "--pipeline=p",
    "--seed=7",
    "--events=1",
    "--",
    "",
    "-x",
    "sqlite",
    "7",
    "r.yml",
];

/// The words behind a command's name, as far as they are read from left to right: what each option has, the option that waits for the
/// next word, whether `--` came, and whether some word can't stand where it does.
#[derive(Drop)]
struct Line<'a> {
    backend: Option<&'a str>,
    schema: Option<&'a str>,
    pipeline: Option<&'a str>,
    seed: Option<&'a str>,
    events: Option<&'a str>,
    files: Vec<&'a str>,
    waits: Option<&'a str>,
    names_only: bool,
    bad: bool,
}

/// Gives an option its value, if it has none and may have this one, and tells whether it was given.
fn put<'a>(place: &mut Option<&'a str>, value: &'a str) -> bool {
    if place.is_some() || value == "" || value.starts_with('-') {
        return false;
    }
    *place = Some(value);
    true
}

impl<'a> Line<'a> {
    fn new(alloc: Global) -> Line<'a> {
        Line {
            backend: None,
            schema: None,
            pipeline: None,
            seed: None,
            events: None,
            files: Vec::new(alloc),
            waits: None,
            names_only: false,
            bad: false,
        }
    }

    fn give(&mut self, option: &str, value: &'a str) {
        let given = match option {
            "backend" => put(&mut self.backend, value),
            "schema" => put(&mut self.schema, value),
            "pipeline" => put(&mut self.pipeline, value),
            "seed" => put(&mut self.seed, value),
            "events" => put(&mut self.events, value),
            _ => false,
        };
        self.bad = self.bad | !given;
    }

    fn name(&mut self, word: &'a str) -> Result<(), Fail> {
        self.bad = self.bad | (word == "");
        self.files.push(word)?;
        Ok(())
    }

    fn read(&mut self, word: &'a str) -> Result<(), Fail> {
        if let Some(option) = self.waits {
            self.waits = None;
            self.give(option, word);
            return Ok(());
        }
        if self.names_only {
            return self.name(word);
        }
        if word == "--" {
            self.names_only = true;
            return Ok(());
        }
        let Some(option) = word.strip_prefix("--") else {
            self.bad = self.bad | word.starts_with('-');
            return self.name(word);
        };
        match option.split_once('=') {
            Some((option, value)) => self.give(option, value),
            None => self.waits = Some(option),
        }
        Ok(())
    }

    /// Whether the words are all that the command asks for, and nothing that it doesn't take.
    fn is_of(&self, command: &str) -> bool {
        if self.bad || self.waits.is_some() {
            return false;
        }
        let files = self.files.len();
        let backend = self.backend == Some("sqlite") || self.backend == Some("lucene");
        let no_numbers = self.seed.is_none() && self.events.is_none();
        match command {
            "check" => {
                self.backend.is_none()
                    && self.schema.is_none()
                    && self.pipeline.is_none()
                    && no_numbers
                    && files > 0
            }
            "convert" => backend && no_numbers && files > 0,
            "run" => self.backend.is_none() && no_numbers && files == 1,
            "query" => {
                backend
                    && self.schema.is_some()
                    && self.pipeline.is_none()
                    && no_numbers
                    && files == 1
            }
            "correlate" => {
                self.backend.is_none() && self.schema.is_some() && no_numbers && files > 0
            }
            "generate" => {
                self.backend.is_none()
                    && self.schema.is_none()
                    && self.pipeline.is_none()
                    && self.seed == Some("7")
                    && self.events == Some("1")
                    && files == 0
            }
            _ => false,
        }
    }
}

fn add(all: &mut String, before: &str, word: Option<&str>) -> Result<(), Fail> {
    if let Some(word) = word {
        all.push_str(before)?;
        all.push_str(word)?;
    }
    Ok(())
}

/// What a command asks for with the words behind it.
fn add_line(all: &mut String, command: &str, line: &Line<'_>) -> Result<(), Fail> {
    all.push_str(command)?;
    add(all, " for ", line.backend)?;
    add(all, " under ", line.schema)?;
    add(all, " by ", line.pipeline)?;
    add(all, " from ", line.seed)?;
    add(all, " so many ", line.events)?;
    for file in line.files.as_slice() {
        add(all, ", ", Some(*file))?;
    }
    Ok(())
}

/// What the words ask for, read from left to right; no text where they ask for nothing.
fn read_apart(alloc: Global, words: &[&str]) -> Result<String, Fail> {
    let mut all = String::new(alloc);
    let Some((command, others)) = words.split_first() else {
        return Ok(all);
    };
    let mut line = Line::new(alloc);
    for word in others {
        line.read(*word)?;
    }
    if line.is_of(*command) {
        add_line(&mut all, *command, &line)?;
    }
    Ok(all)
}

fn add_text(all: &mut String, before: &str, text: &Option<Text>) -> Result<(), Fail> {
    match text {
        Some(text) => add(all, before, Some(text.as_str())),
        None => Ok(()),
    }
}

fn add_files(all: &mut String, files: &[Text]) -> Result<(), Fail> {
    for file in files {
        add(all, ", ", Some(file.as_str()))?;
    }
    Ok(())
}

fn backend_word(backend: BackendName) -> &'static str {
    match backend {
        BackendName::Sqlite => "sqlite",
        BackendName::Lucene => "lucene",
    }
}

/// The decimal of the two numbers that the table has.
fn decimal(number: u32) -> &'static str {
    match number {
        1 => "1",
        7 => "7",
        _ => "another number",
    }
}

/// What a request asks for.
fn add_request(all: &mut String, request: &Request) -> Result<(), Fail> {
    match request {
        Request::Check { rules } => {
            all.push_str("check")?;
            add_files(all, rules.as_slice())
        }
        Request::Convert {
            backend,
            schema,
            pipelines,
            rules,
        } => {
            add(all, "convert for ", Some(backend_word(*backend)))?;
            add_text(all, " under ", schema)?;
            add_text(all, " by ", pipelines)?;
            add_files(all, rules.as_slice())
        }
        Request::Run {
            schema,
            pipelines,
            rule,
        } => {
            all.push_str("run")?;
            add_text(all, " under ", schema)?;
            add_text(all, " by ", pipelines)?;
            add(all, ", ", Some(rule.as_str()))
        }
        Request::Query {
            backend,
            schema,
            query,
        } => {
            add(all, "query for ", Some(backend_word(*backend)))?;
            add(all, " under ", Some(schema.as_str()))?;
            add(all, ", ", Some(query.as_str()))
        }
        Request::Correlate {
            schema,
            pipelines,
            rules,
        } => {
            add(all, "correlate under ", Some(schema.as_str()))?;
            add_text(all, " by ", pipelines)?;
            add_files(all, rules.as_slice())
        }
        Request::Generate { seed, events } => {
            add(all, "generate from ", Some(decimal(*seed)))?;
            add(all, " so many ", Some(decimal(*events)))
        }
    }
}

fn words_of(alloc: Global, words: &[&str]) -> Result<Vec<Text>, Fail> {
    let mut all = Vec::new(alloc);
    for word in words {
        all.push(Text::copy(alloc, word)?)?;
    }
    Ok(all)
}

/// What the words ask for, as the program reads them; no text where they ask for nothing.
fn read_whole(alloc: Global, words: &[&str]) -> Result<String, Fail> {
    let mut all = String::new(alloc);
    let words = words_of(alloc, words)?;
    if let Some(request) = &read_words(alloc, words.as_slice())? {
        add_request(&mut all, request)?;
    }
    Ok(all)
}

/// Asserts that both readings are the same, and gives 1 where the words are accepted.
fn agree(rt: &impl Abort, alloc: Global, words: &[&str]) -> Result<u32, Fail> {
    let apart = read_apart(alloc, words)?;
    assert_eq!(rt; read_whole(alloc, words)?.as_str(), apart.as_str());
    if apart.as_str() == "" { Ok(0) } else { Ok(1) }
}

/// How many lists are accepted that begin with a word: of two, three and four words.
fn accepted_with(rt: &impl Abort, alloc: Global, first: &str) -> Result<(u32, u32, u32), Fail> {
    let mut two: u32 = 0;
    let mut three: u32 = 0;
    let mut four: u32 = 0;
    for second in TABLE {
        two = two.saturating_add(agree(rt, alloc, &[first, second])?);
        for third in TABLE {
            three = three.saturating_add(agree(rt, alloc, &[first, second, third])?);
            for fourth in TABLE {
                let words: [&str; 4] = [first, second, third, fourth];
                four = four.saturating_add(agree(rt, alloc, &words)?);
            }
        }
    }
    Ok((two, three, four))
}

/// Both readings accept the same lists of up to four words, and as the same request; so many of two, three and four words are accepted.
#[test]
fn all_lists_are_read_alike(rt: HostRuntime) -> Result<(), Fail> {
    let alloc = rt.alloc();
    assert_eq!(rt; agree(&rt, alloc, &[])?, 0);
    for first in TABLE {
        let accepted = match first {
            "check" => (9, 109, 1342),
            "convert" => (0, 18, 406),
            "run" => (9, 64, 290),
            "query" => (0, 0, 54),
            "correlate" => (0, 18, 496),
            "generate" => (0, 2, 4),
            _ => (0, 0, 0),
        };
        assert_eq!(rt; agree(&rt, alloc, &[first])?, 0);
        assert_eq!(rt; accepted_with(&rt, alloc, first)?, accepted);
    }
    Ok(())
}
