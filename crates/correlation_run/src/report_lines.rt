//! Writing what events are answered: their reports, or that they come too early.

ghost use Rattle.std.specs.Prelude.{◌≡◌, [], IfOk, string_bytes, encode_utf8_all, slice_index_or};
ghost use Rattle.answer_writer.specs.Each.{AllShares};
ghost use Rattle.answer_writer.specs.EventLines.{refused_as};
ghost use Rattle.answer_writer.specs.Lines.{ended};
ghost use Rattle.answer_writer.specs.Parts.{diagnostic_share};
ghost use Rattle.answer_writer.specs.Stands.{Writes};
ghost use Rattle.correlation_run.specs.Followed.{order_diagnostic, with_moments, report_share};

use crate::line::write_report;
use answer_writer::{Outside, Stop, put_line, tell_diagnostic};
use correlation_windows::Report;
use sig_base::{Code, Text};
use std::alloc::{AllocError, Global};

/// The diagnostic about an event of which the moment is before the last one, with its line feed.
fn order_text(
    alloc: Global,
    line: u32,
    code: u16,
    cause: &str,
    moment: i128,
    last: i128,
) -> Result<String, AllocError>
    ensures { IfOk result (λ text. string_bytes text ≡ ended (refused_as line code (with_moments cause.now moment last))) }
{
    format!(in alloc; "events:{line}: {code} {cause} {moment} {last}\n")
}

/// Writes that an event of this moment comes too early, behind one of a later moment.
pub(crate) fn tell_early<W: Outside>(
    alloc: Global,
    number: u32,
    moment: i128,
    last: i128,
    outside: &mut W,
) -> Result<bool, Stop>
    ensures { Writes (λ share. share ≡ diagnostic_share (order_diagnostic number moment last)) result (W.state outside.old) (W.state outside.new) }
{
    let code = Code::OUT_OF_ORDER;
    match order_text(alloc, number, code.number(), code.name(), moment, last) {
        Ok(line) => tell_diagnostic(line.as_bytes(), outside),
        Err(_) => Err(Stop::Memory),
    }
}

/// The name of the correlation of this number; the empty text behind the last.
fn name_of(names: &[Text], number: u32) -> &str
    ensures { result.now ≡ encode_utf8_all (slice_index_or names.now number []) }
{
    match names.get(number as usize) {
        Some(name) => name.as_str(),
        None => "",
    }
}

/// Writes the line of a report, by the name of its correlation.
fn put_report<W: Outside>(
    alloc: Global,
    names: &[Text],
    report: &Report,
    outside: &mut W,
) -> Result<bool, Stop>
    ensures { Writes (λ share. share ≡ report_share names.now report.now) result (W.state outside.old) (W.state outside.new) }
{
    match write_report(alloc, report, name_of(names, report.correlation)) {
        Ok(line) => put_line(line.into_vec(), outside),
        Err(_) => Err(Stop::Memory),
    }
}

/// Writes the lines of reports, in their order.
pub(crate) fn put_reports<W: Outside>(
    alloc: Global,
    names: &[Text],
    reports: &[Report],
    outside: &mut W,
) -> Result<bool, Stop>
    ensures { Writes (AllShares (λ r one. one ≡ report_share names.now r) reports.now) result (W.state outside.old) (W.state outside.new) }
{
    let mut found = false;
    for report in reports {
        match put_report(alloc, names, report, outside) {
            Ok(one) => found |= one,
            Err(stop) => return Err(stop),
        }
    }
    Ok(found)
}
