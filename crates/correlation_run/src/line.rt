//! The line that tells of a report.

ghost use Rattle.std.specs.Prelude.{◌≡◌, ◌++◌, IfOk, IfErr, OnOk, codes, decimal, encode_utf8_all, string_bytes};
ghost use Rattle.json.specs.Print.{quoted};
ghost use Rattle.serde_json.specs.Data.{string};
ghost use Rattle.serde_json.specs.View.{view};
ghost use Rattle.correlation_run.specs.Lines.{report_line, more_texts, all_texts};

use correlation_windows::Report;
use itoa::Buffer;
use serde_json::Value;
use sig_base::{Bytes, Fault, Text};
use std::alloc::Global;

fn value_of(text: String) -> Value
    ensures { view result ≡ string (string_bytes text) }
{
    Value::String(text)
}

/// Adds a text as a JSON string.
fn add_text(alloc: Global, line: &mut Vec<u8>, text: &str) -> Result<(), Fault>
    ensures ok { OnOk result (line.new.items ≡ line.old.items ++ quoted text.now) }
    ensures err { IfErr result (λ e. e ≡ Fault.Memory) }
{
    let value = value_of(String::from_str(alloc, text)?);
    let written = value.to_vec(alloc)?;
    line.extend_from_slice(written.as_slice())?;
    Ok(())
}

/// Adds a name of the object and a number's decimal.
fn add_number(line: &mut Vec<u8>, name: &[u8], number: u64) -> Result<(), Fault>
    ensures ok { OnOk result (line.new.items ≡ (line.old.items ++ name.now) ++ decimal number) }
    ensures err { IfErr result (λ e. e ≡ Fault.Memory) }
{
    let mut buffer = Buffer::new();
    line.extend_from_slice(name)?;
    line.extend_from_slice(buffer.format(number).as_bytes())?;
    Ok(())
}

/// Adds texts, each behind a comma.
fn add_more(alloc: Global, line: &mut Vec<u8>, texts: &[Text]) -> Result<(), Fault>
    ensures ok { OnOk result (line.new.items ≡ line.old.items ++ more_texts texts.now) }
    ensures err { IfErr result (λ e. e ≡ Fault.Memory) }
{
    for text in texts {
        line.extend_from_slice(b",")?;
        add_text(alloc, line, text.as_str())?;
    }
    Ok(())
}

/// Adds texts with commas between them.
fn add_texts(alloc: Global, line: &mut Vec<u8>, texts: &[Text]) -> Result<(), Fault>
    ensures ok { OnOk result (line.new.items ≡ line.old.items ++ all_texts texts.now) }
    ensures err { IfErr result (λ e. e ≡ Fault.Memory) }
{
    let [first, ..] = texts else {
        return Ok(());
    };
    add_text(alloc, line, first.as_str())?;
    add_more(alloc, line, texts.split_at(1).1)
}

/// The line of a report, without a line feed: a JSON object of the correlation's name, the lines of the window's last and
/// first match, what was counted, and the texts of the group. Only want of memory is answered.
pub fn write_report(alloc: Global, report: &Report, name: &str) -> Result<Bytes, Fault>
    ensures ok { IfOk result (λ line. line ≡ report_line name.now report.now) }
    ensures err { IfErr result (λ e. e ≡ Fault.Memory) }
{
    let mut line = Vec::from_slice(alloc, b"{\"correlation\":")?;
    add_text(alloc, &mut line, name)?;
    add_number(&mut line, b",\"line\":", report.line as u64)?;
    add_number(&mut line, b",\"from\":", report.from as u64)?;
    add_number(&mut line, b",\"count\":", report.count)?;
    line.extend_from_slice(b",\"group\":[")?;
    add_texts(alloc, &mut line, report.group.as_slice())?;
    line.extend_from_slice(b"]}")?;
    Ok(Bytes::from_vec(line))
}
