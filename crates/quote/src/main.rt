// Reads the files `chain` and `paper` of the folder that it is run in, and writes the quotes or a refusal.
#![tactic(auto)]

use anyhow::bail;
use programs::files::text_of;
use programs::quote::answer;
use std::io;
use std::io::Write;

// A file that cannot be read is told on standard error.
fn read_or_tell(rt: &HostRuntime, name: &str) -> io::Result<Vec<u8>> {
    text_of(rt, name).inspect_err(|e| {
        let _ = eprintln!(rt; "quote: cannot read the file {name}: {e}");
    })
}

fn main(rt: HostRuntime) -> anyhow::Result<()> {
    let chain = read_or_tell(&rt, "chain")?;
    let paper = read_or_tell(&rt, "paper")?;
    // These lines stand in `cases` too: a library's function that prints could promise nothing.
    let mut out = [0u8; 256];
    let Ok(length) = answer(rt.alloc(), &chain, &paper, &mut out) else {
        bail!("the answer is too long");
    };
    rt.stdout().write_all(&out[..length])?;
    Ok(())
}
