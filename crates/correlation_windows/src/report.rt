//! Reports of windows.

use sig_base::Texts;

/// A window in which a correlation fires: the correlation's number, the lines of the window's last and first match, how
/// many are counted, and the texts of the group.
#[derive(Drop, Debug)]
pub struct Report {
    pub correlation: u32,
    pub line: u32,
    pub from: u32,
    pub count: u64,
    pub group: Texts,
}
