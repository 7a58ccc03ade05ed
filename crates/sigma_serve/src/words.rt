//! The words of the command line.

ghost use Rattle.std.specs.Prelude.{◌≡◌, List, [], map, Some, unwrap_or, option_map, option_and_then, IfOk, IfSome, IfNone};
ghost use Rattle.std.specs.Str.{chars};
ghost use Rattle.command_line.specs.Given.{Item};
ghost use Rattle.command_line.specs.Matched.{HasItems};
ghost use Rattle.sigma_serve.specs.Words.{IsAccepted, IsUnaccepted, files_of, only, pipelines_in, request_with, schema_in};
ghost use Rattle.sigma_serve.specs.Words as accepted_words;
ghost use Rattle.sigma_serve.specs.declared.request.Request.TheVariants as requests;

use crate::numbers::number_if_any;
use crate::request::Request;
use clap::ArgMatches;
use command_line::{CommandName, items_are_read, read};
use rule_convert::BackendName;
use sig_base::{Text, Texts};
use std::alloc::{AllocError, Global};

/// So many words, or more, aren't accepted.
const TOO_MANY_WORDS: usize = 1 << 20;

/// So many events can be generated, and no more.
const MOST_EVENTS: u32 = 100_000;

/// The command of this name.
fn command_named(word: &Text) -> Option<CommandName>
    ensures { result ≡ accepted_words.command_named word.now }
{
    if word.is("check") {
        return Some(CommandName::Check);
    }
    if word.is("convert") {
        return Some(CommandName::Convert);
    }
    if word.is("run") {
        return Some(CommandName::Run);
    }
    if word.is("query") {
        return Some(CommandName::Query);
    }
    if word.is("correlate") {
        return Some(CommandName::Correlate);
    }
    if word.is("generate") {
        return Some(CommandName::Generate);
    }
    None
}

/// The words in UTF-8, which are lent.
fn lent<'a>(alloc: Global, words: &'a [Text]) -> Result<Vec<&'a str>, AllocError>
    ensures { IfOk result (λ all. map (λ s. s.now) all.items ≡ accepted_words.in_utf8 words.entry.now) }
{
    let mut all = Vec::with_capacity(alloc, words.len())?;
    for word in words {
        all.push(word.as_str())?;
    }
    Ok(all)
}

/// Copies of names.
fn copies(alloc: Global, names: &[&str]) -> Result<Texts, AllocError>
    ensures { IfOk result (λ all. all ≡ map chars (map (λ s. s.now) names.now)) }
{
    let mut all = Texts::new(alloc);
    for name in names {
        match Text::copy(alloc, name) {
            Ok(copy) => all.push(copy)?,
            Err(_) => return Err(AllocError),
        }
    }
    Ok(all)
}

/// Copies of the names, if there are some.
fn copies_if_any(alloc: Global, names: Option<&[&str]>) -> Result<Texts, AllocError>
    ensures { IfOk result (λ all. all ≡ map chars (unwrap_or (option_map (λ s. map (λ v. v.now) s.now) names.entry) [])) }
{
    match names {
        Some(names) => copies(alloc, names),
        None => Ok(Texts::new(alloc)),
    }
}

/// A copy of the name, if there is one.
fn copy_if_any(alloc: Global, name: Option<&str>) -> Result<Option<Text>, AllocError>
    ensures { IfOk result (λ copy. copy ≡ option_map chars (option_map (λ s. s.now) name.entry)) }
{
    let Some(name) = name else {
        return Ok(None);
    };
    match Text::copy(alloc, name) {
        Ok(copy) => Ok(Some(copy)),
        Err(_) => Err(AllocError),
    }
}

/// The backend of this name.
fn backend_named(name: &str) -> Option<BackendName>
    ensures { result ≡ accepted_words.backend_named name.now }
{
    if name.as_bytes() == b"sqlite".as_slice() {
        return Some(BackendName::Sqlite);
    }
    if name.as_bytes() == b"lucene".as_slice() {
        return Some(BackendName::Lucene);
    }
    None
}

/// The backend of this name, if there is one.
fn backend_if_any(name: Option<&str>) -> Option<BackendName>
    ensures { result ≡ option_and_then accepted_words.backend_named (option_map (λ s. s.now) name.entry) }
{
    match name {
        Some(name) => backend_named(name),
        None => None,
    }
}

/// What `check` asks for.
fn check_request(alloc: Global, found: &ArgMatches) -> Result<Option<Request>, AllocError>
    ensures { (items : List Item) → HasItems found.now items → IfOk result (λ r. r ≡ Some (requests.Check (files_of items))) }
{
    match copies_if_any(alloc, found.get_raw("FILE")) {
        Ok(rules) => Ok(Some(Request::Check { rules })),
        Err(error) => Err(error),
    }
}

/// What `convert` asks for.
fn convert_request(alloc: Global, found: &ArgMatches) -> Result<Option<Request>, AllocError>
    ensures { (items : List Item) → HasItems found.now items → IfOk result (λ r. r ≡ request_with CommandName.Convert items) }
{
    let Some(backend) = backend_if_any(found.get_str("backend")) else {
        return Ok(None);
    };
    let rules = match copies_if_any(alloc, found.get_raw("FILE")) {
        Ok(rules) => rules,
        Err(error) => return Err(error),
    };
    let pipelines = match copy_if_any(alloc, found.get_str("pipeline")) {
        Ok(pipelines) => pipelines,
        Err(error) => return Err(error),
    };
    match copy_if_any(alloc, found.get_str("schema")) {
        Ok(schema) => Ok(Some(Request::Convert {
            backend,
            schema,
            pipelines,
            rules,
        })),
        Err(error) => Err(error),
    }
}

/// A copy of the one name of these, if there is one and no other.
fn copy_only(alloc: Global, names: &[Text]) -> Result<Option<Text>, AllocError>
    ensures { IfOk result (λ copy. copy ≡ accepted_words.only names.now) }
{
    let [name] = names else {
        return Ok(None);
    };
    match Text::copy(alloc, name.as_str()) {
        Ok(copy) => Ok(Some(copy)),
        Err(_) => Err(AllocError),
    }
}

/// What `run` asks for.
fn run_request(alloc: Global, found: &ArgMatches) -> Result<Option<Request>, AllocError>
    ensures { (items : List Item) → HasItems found.now items → IfOk result (λ r. r ≡ option_map (requests.Run (schema_in items) (pipelines_in items)) (only (files_of items))) }
{
    let files = match copies_if_any(alloc, found.get_raw("FILE")) {
        Ok(files) => files,
        Err(error) => return Err(error),
    };
    let rule = match copy_only(alloc, files.as_slice()) {
        Ok(rule) => rule,
        Err(error) => return Err(error),
    };
    let Some(rule) = rule else {
        return Ok(None);
    };
    let pipelines = match copy_if_any(alloc, found.get_str("pipeline")) {
        Ok(pipelines) => pipelines,
        Err(error) => return Err(error),
    };
    match copy_if_any(alloc, found.get_str("schema")) {
        Ok(schema) => Ok(Some(Request::Run {
            schema,
            pipelines,
            rule,
        })),
        Err(error) => Err(error),
    }
}

/// What `query` asks for.
fn query_request(alloc: Global, found: &ArgMatches) -> Result<Option<Request>, AllocError>
    ensures { (items : List Item) → HasItems found.now items → IfOk result (λ r. r ≡ request_with CommandName.Query items) }
{
    let Some(backend) = backend_if_any(found.get_str("backend")) else {
        return Ok(None);
    };
    let named = match copy_if_any(alloc, found.get_str("schema")) {
        Ok(named) => named,
        Err(error) => return Err(error),
    };
    let Some(schema) = named else {
        return Ok(None);
    };
    let files = match copies_if_any(alloc, found.get_raw("FILE")) {
        Ok(files) => files,
        Err(error) => return Err(error),
    };
    match copy_only(alloc, files.as_slice()) {
        Ok(Some(query)) => Ok(Some(Request::Query {
            backend,
            schema,
            query,
        })),
        Ok(None) => Ok(None),
        Err(error) => Err(error),
    }
}

/// What `correlate` asks for.
fn correlate_request(alloc: Global, found: &ArgMatches) -> Result<Option<Request>, AllocError>
    ensures { (items : List Item) → HasItems found.now items → IfOk result (λ r. r ≡ request_with CommandName.Correlate items) }
{
    let named = match copy_if_any(alloc, found.get_str("schema")) {
        Ok(named) => named,
        Err(error) => return Err(error),
    };
    let Some(schema) = named else {
        return Ok(None);
    };
    let pipelines = match copy_if_any(alloc, found.get_str("pipeline")) {
        Ok(pipelines) => pipelines,
        Err(error) => return Err(error),
    };
    match copies_if_any(alloc, found.get_raw("FILE")) {
        Ok(rules) => Ok(Some(Request::Correlate {
            schema,
            pipelines,
            rules,
        })),
        Err(error) => Err(error),
    }
}

/// What `generate` asks for.
fn generate_request(found: &ArgMatches) -> Option<Request>
    ensures { (items : List Item) → HasItems found.now items → result ≡ request_with CommandName.Generate items }
{
    let seed = number_if_any(found.get_str("seed"), u32::MAX)?;
    let events = number_if_any(found.get_str("events"), MOST_EVENTS)?;
    Some(Request::Generate { seed, events })
}

/// What a command asks for, by what clap found in the words behind its name.
fn request_with(
    alloc: Global,
    command: CommandName,
    found: &ArgMatches,
) -> Result<Option<Request>, AllocError>
    ensures { (items : List Item) → HasItems found.now items → IfOk result (λ r. r ≡ request_with command items) }
{
    match command {
        CommandName::Check => check_request(alloc, found),
        CommandName::Convert => convert_request(alloc, found),
        CommandName::Run => run_request(alloc, found),
        CommandName::Query => query_request(alloc, found),
        CommandName::Correlate => correlate_request(alloc, found),
        CommandName::Generate => Ok(generate_request(found)),
    }
}

/// The request of a command with these words behind its name, if there is one.
fn read_request(
    alloc: Global,
    command: CommandName,
    others: &[Text],
) -> Result<Option<Request>, AllocError>
    ensures { IfOk result (λ r. r ≡ accepted_words.asked command others.now) }
{
    items_are_read();
    let others = lent(alloc, others)?;
    match read(alloc, command, others.as_slice()) {
        Ok(Some(found)) => request_with(alloc, command, &found),
        Ok(None) => Ok(None),
        Err(_) => Err(AllocError),
    }
}

/// What is read of the words; an error is want of memory.
fn read_exactly(alloc: Global, words: &[Text]) -> Result<Option<Request>, AllocError>
    ensures { IfOk result (λ r. r ≡ accepted_words.read words.now) }
{
    if words.len() >= TOO_MANY_WORDS {
        return Ok(None);
    }
    let [word, ..] = words else {
        return Ok(None);
    };
    let Some(command) = command_named(word) else {
        return Ok(None);
    };
    read_request(alloc, command, words.split_at(1).1)
}

/// The request that the words are, if they are one; an error is want of memory.
pub fn read_words(alloc: Global, words: &[Text]) -> Result<Option<Request>, AllocError>
    ensures accepted { IfOk result (λ r. IfSome r (λ request. IsAccepted words.now request)) }
    ensures unaccepted { IfOk result (λ r. IfNone r (IsUnaccepted words.now)) }
{
    read_exactly(alloc, words)
}
