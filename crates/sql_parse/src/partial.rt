//! What has been read of one test.

use crate::syntax::{Leaf, Literal, Ors, Right};
use sig_base::Text;
use sql_lang::{Collate, SqlOp};
use sql_scan::Numeral;

#[derive(Drop)]
pub enum Partial {
    Start,
    Named(Text),
    Collating(Text),
    Collated(Text, Collate),
    Is(Text),
    IsNot(Text),
    Against(Text, Collate, SqlOp),
    Compared(Text, Collate, SqlOp, Right),
    RightCollating(Text, Collate, SqlOp, Right),
    NamedNot(Text),
    CollatedNot(Text, Collate),
    Liking(Text, bool),
    Liked(Text, bool, Text),
    Escaping(Text, bool, Text),
    Globbing(Text, bool),
    Searching(Text, bool),
    Among(Text, Collate, bool),
    Listing(Text, Collate, bool, Vec<Literal>),
    Listed(Text, Collate, bool, Vec<Literal>, Literal),
    Ranging(Text, Collate, bool),
    Low(Text, Collate, bool, Numeral),
    High(Text, Collate, bool, Numeral),
    Complete(Leaf),
    Closed(Box<Ors>),
}
