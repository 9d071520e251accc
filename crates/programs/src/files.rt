// Reading the files of a program.
use std::fs::File;
use std::io;
use std::io::{ErrorKind, Read};

// The bytes of a file, and none where there is no such file. One byte more than a text may have is enough to tell that it is too long.
pub fn text_of(rt: &HostRuntime, name: &str) -> io::Result<Vec<u8>> {
    let mut bytes = Vec::new(rt.alloc());
    let file = match File::open(rt, name) {
        Err(e) if e.kind() == ErrorKind::NotFound => return Ok(bytes),
        opened => opened?,
    };
    file.take(65_537).read_to_end(&mut bytes)?;
    Ok(bytes)
}
