//! The words that the program is called with, read from the system.

use sig_base::Text;
use std::alloc::Global;
use std::env;
use std::io::ErrorKind;
use std::rt::Env;

/// The words behind the program's name, and none at all where one of them, or that name, isn't UTF-8, since such words are
/// no request. Nothing where memory is missing for them.
pub fn words_of<R: Env + Alloc<A = Global>>(rt: &R) -> Option<Vec<Text>> {
    let mut words = Vec::new(rt.alloc());
    match env::args(rt) {
        Ok(arguments) => {
            for word in arguments.skip(1) {
                words.push(Text::from_string(word)).ok()?;
            }
            Some(words)
        }
        Err(error) => {
            if error.kind() == ErrorKind::InvalidData {
                Some(words)
            } else {
                None
            }
        }
    }
}
