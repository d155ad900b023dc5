//! The words that the system gives a program.
use crate::unmade::Unmade;
use std::env;
use std::io::ErrorKind;
use std::rt::Env;

/// The words after the program's name; or why the system gives none.
pub fn words_of<R: Env + AllocGlobal>(rt: &R) -> Result<Vec<String>, Unmade> {
    let mut words = Vec::new(rt.alloc());
    let all = match env::args(rt) {
        Ok(all) => all,
        Err(error) if error.kind() == ErrorKind::OutOfMemory => return Err(Unmade::Memory),
        Err(_) => return Err(Unmade::Words),
    };
    for word in all.skip(1) {
        if words.push(word).is_err() {
            return Err(Unmade::Memory);
        }
    }
    Ok(words)
}
