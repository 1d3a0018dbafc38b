//! The words that the host has for a program.
ghost use Rattle.std.specs.Prelude.{◌≡◌, ◌⊎◌, IfErr};

use std::env;
use std::io::ErrorKind;

/// Copies the words of the program's command line, its name first. An error says on standard error
/// what is wrong, after this name of the program, and gives the exit status: 2 where a word is no
/// UTF-8 text, 3 where memory is wanting. Takes memory. This project's choice.
pub fn words_of(rt: &HostRuntime, program: &str) -> Result<Vec<String>, u8>
    ensures statuses { IfErr result (λ status. (status ≡ 2) ⊎ (status ≡ 3)) }
{
    let error = match env::args(rt) {
        Ok(words) => match words.collect(rt.alloc()) {
            Ok(words) => return Ok(words),
            Err(_) => ErrorKind::OutOfMemory,
        },
        Err(error) => error.kind(),
    };
    if error == ErrorKind::OutOfMemory {
        let _ = eprintln!(rt; "{program}: out of memory");
        return Err(3);
    }
    let _ = eprintln!(rt; "{program}: the command line is no text");
    Err(2)
}
