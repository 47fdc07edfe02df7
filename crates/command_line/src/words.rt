// The words of the command line.

ghost use Rattle.std.specs.Prelude.{◌≡◌, drop, IfOk, MatchResult};
ghost use Rattle.std.specs.Vec.Iter.{into_iter_items};
ghost use Rattle.std.specs.IoError.{error_kind};
ghost use Rattle.command_line.specs.Words.{refused_words};

use crate::status::Status;
use std::alloc::{AllocError, Global};
use std::env::Args;
use std::io;
use std::io::ErrorKind;

fn all_but_first(alloc: Global, mut all: Args) -> Result<Vec<String>, AllocError>
    ensures { IfOk result (λ words. words.items ≡ drop 1 (into_iter_items all)) }
{
    let _name = all.next();
    let mut words = Vec::new(alloc);
    while let Some(word) = all.next() {
        words.push(word)?;
    }
    Ok(words)
}

/// The words behind the program's name, all of them. Words that can't be read are no command, and where memory was
/// refused in reading them, that is the answer.
pub fn words_of(alloc: Global, arguments: io::Result<Args>) -> Result<Vec<String>, Status>
    ensures { MatchResult arguments
        (λ all. MatchResult result (λ words. words.items ≡ drop 1 (into_iter_items all))
        (λ status. status ≡ Status.OutOfMemory))
        (λ fault. result ≡ Err (refused_words (error_kind fault))) }
{
    match arguments {
        Ok(all) => match all_but_first(alloc, all) {
            Ok(words) => Ok(words),
            Err(_) => Err(Status::OutOfMemory),
        },
        Err(fault) => match fault.kind() {
            ErrorKind::OutOfMemory => Err(Status::OutOfMemory),
            _ => Err(Status::Usage),
        },
    }
}
