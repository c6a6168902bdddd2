// The words of the command line.
ghost use Rattle.std.specs.Prelude.{◌≡◌, IfOk, drop, map, string_bytes};
ghost use Rattle.std.specs.Vec.Iter.{into_iter_items};

use apex_types::{OutOfMemory, Words};
use std::alloc::Global;
use std::env;
use std::env::Args;
use std::io::ErrorKind;
use std::rt::Env;

/// The words behind the program's name. Arguments that can't be read give no words, and so does a word that isn't
/// UTF-8: that is a faulty command line. Without memory there is no answer.
pub fn command_words<R: Env + AllocGlobal>(rt: &R) -> Result<Words, OutOfMemory> {
    match env::args(rt) {
        Ok(arguments) => words_behind_name(rt.alloc(), arguments),
        Err(error) => {
            if error.kind() == ErrorKind::OutOfMemory {
                return Err(OutOfMemory);
            }
            Ok(Words::new(rt.alloc()))
        }
    }
}

/// All arguments but the first, which is the program's name.
fn words_behind_name(alloc: Global, mut arguments: Args) -> Result<Words, OutOfMemory>
    ensures { IfOk result (λ words. words ≡ map string_bytes (drop 1 (into_iter_items arguments))) }
{
    let _name = arguments.next();
    words_of(alloc, arguments)
}

/// All arguments, in their order.
fn words_of(alloc: Global, arguments: Args) -> Result<Words, OutOfMemory>
    ensures { IfOk result (λ words. words ≡ map string_bytes (into_iter_items arguments)) }
{
    let mut words = Words::new(alloc);
    for argument in arguments {
        words.push(argument.as_bytes())?;
    }
    Ok(words)
}
