//! The arguments of the command.
use gb_report::fault::Fault;
use std::env;
use std::io::ErrorKind;
use std::rt::Env;

/// The arguments of the command, without the program's name. If one is not UTF-8, they are refused
/// (96).
pub fn command_words<R: Env + AllocGlobal>(rt: &R) -> Result<Vec<String>, Fault> {
    let words = match env::args(rt) {
        Ok(words) => words,
        Err(error) if error.kind() == ErrorKind::OutOfMemory => return Err(Fault::OutOfMemory),
        Err(_) => return Err(Fault::Usage),
    };
    let mut given = Vec::new(rt.alloc());
    for word in words.skip(1) {
        given.push(word)?;
    }
    Ok(given)
}
