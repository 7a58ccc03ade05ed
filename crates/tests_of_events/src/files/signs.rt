//! Texts of several lines in one row of a table.

use std::alloc::Global;
use std::test::Fail;

/// The text, with a line feed for each `¶` and a tab for each `»`.
pub fn written(alloc: Global, text: &str) -> Result<String, Fail> {
    let mut all = String::new(alloc);
    for c in text.chars() {
        all.push(match c {
            '¶' => '\n',
            '»' => '\t',
            _ => c,
        })?;
    }
    Ok(all)
}

/// The three columns of a row.
pub fn columns(row: &str) -> Option<(&str, &str, &str)> {
    let Some((first, behind)) = row.split_once('~') else {
        return None;
    };
    let Some((second, third)) = behind.split_once('~') else {
        return None;
    };
    Some((first, second, third))
}
