//! What is told of a row.

use std::process::Abort;
use std::test::Fail;

/// Asserts that this is told. A test that ends in it holds nothing that has to be dropped.
pub fn assert_told(rt: &impl Abort, told: Result<String, Fail>, want: &str) -> Result<(), Fail> {
    let told = told?;
    assert_eq!(rt; told.as_str(), want);
    Ok(())
}
