//! The words of a faked command line.
use apex_types::{OutOfMemory, Words};
use std::alloc::Global;
use std::env::FillError;
use std::rt::Env;
use std::test::Fail;
use system_adapters::command_words;

/// A command line of three words.
#[derive(Drop)]
struct CommandLine {
    words: [&'static [u8]; 3],
}

impl Env for CommandLine {
    fn arg(&self, i: usize, buf: &mut [u8]) -> Result<usize, FillError> {
        if i >= 3 {
            return Err(FillError::NotPresent);
        }
        let word = self.words[i];
        if word.len() > buf.len() {
            return Err(FillError::TooLong);
        }
        buf[..word.len()].copy_from_slice(word);
        Ok(word.len())
    }

    fn var(&self, _name: &str, _buf: &mut [u8]) -> Result<usize, FillError> {
        Err(FillError::NotPresent)
    }

    fn var_at(&self, _i: usize, _buf: &mut [u8]) -> Result<usize, FillError> {
        Err(FillError::NotPresent)
    }
}

/// The words of a command line whose last word is this one.
fn words_with(alloc: Global, last: &'static [u8]) -> Result<Words, OutOfMemory> {
    let line = CommandLine {
        words: [b"apexhost", b"only", last],
    };
    command_words(&(line, alloc))
}

/// Whether these are the words `only FMS`.
fn are_only_fms(words: &Words) -> bool {
    words.len() == 2 && words.word(0) == b"only".as_slice() && words.word(1) == b"FMS".as_slice()
}

#[test]
fn the_words_stand_behind_the_name(rt: HostRuntime) -> Result<(), Fail> {
    assert!(rt; are_only_fms(&words_with(rt.alloc(), b"FMS")?));
    Ok(())
}

#[test]
fn a_word_of_other_bytes_makes_the_line_faulty(rt: HostRuntime) -> Result<(), Fail> {
    assert!(rt; words_with(rt.alloc(), b"F\xffS")?.len() == 0);
    Ok(())
}
