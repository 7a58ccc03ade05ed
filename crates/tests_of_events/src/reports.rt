//! A report of numbers that no events bring.

use crate::telling::assert_told;
use correlation_run::write_report;
use correlation_windows::Report;
use sig_base::Texts;
use std::alloc::Global;
use std::test::Fail;

/// The line of a report with this window.
fn line_of(alloc: Global, line: u32, from: u32, count: u64) -> Result<String, Fail> {
    let report = Report {
        correlation: 7,
        line,
        from,
        count,
        group: Texts::new(alloc),
    };
    let bytes = write_report(alloc, &report, "both")?;
    match String::from_utf8(bytes.into_vec()) {
        Ok(text) => Ok(text),
        Err(_) => Ok(String::new(alloc)),
    }
}

#[test]
fn the_highest_numbers_are_written(rt: HostRuntime) -> Result<(), Fail> {
    assert_told(
        &rt,
        line_of(rt.alloc(), 4_294_967_295, 0, 18_446_744_073_709_551_615),
        r#"{"correlation":"both","line":4294967295,"from":0,"count":18446744073709551615,"group":[]}"#,
    )
}
