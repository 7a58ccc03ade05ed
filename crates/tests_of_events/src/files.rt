//! Tests of lines that are followed.

mod ends;
mod following;
mod signs;
