//! The words of the program.

use std::env::FillError;
use std::rt::Env;
use std::test::Fail;
use system_io::words_of;

/// A program's words of which the last one isn't UTF-8.
#[derive(Drop)]
struct Words;

const WORDS: [&[u8]; 4] = [b"sigma", b"check", b"b.yml", b"b\xFF"];

impl Env for Words {
    fn arg(&self, i: usize, buf: &mut [u8]) -> Result<usize, FillError> {
        let Some(word) = WORDS.get(i) else {
            return Err(FillError::NotPresent);
        };
        let Some(front) = buf.get_mut(..word.len()) else {
            return Err(FillError::TooLong);
        };
        front.copy_from_slice(word);
        Ok(word.len())
    }

    fn var(&self, _name: &str, _buf: &mut [u8]) -> Result<usize, FillError> {
        Err(FillError::NotPresent)
    }

    fn var_at(&self, _i: usize, _buf: &mut [u8]) -> Result<usize, FillError> {
        Err(FillError::NotPresent)
    }
}

/// Words that aren't UTF-8 are bad usage, as no words are.
#[test]
fn accepts_no_bytes(rt: HostRuntime) -> Result<(), Fail> {
    let words = words_of(&(Words, rt.alloc()));
    assert_eq!(rt; words.map(|all| all.len()), Some(0));
    Ok(())
}
