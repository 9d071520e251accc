// Runs the work of `quote` over the cases that the file `list` names, one to a line, and writes each name and its answer.
#![tactic(auto)]

use anyhow::bail;
use programs::files::text_of;
use programs::quote::answer;
use std::fs;
use std::io::Write;

fn run_case(rt: &HostRuntime, name: &str) -> anyhow::Result<()> {
    let heap = rt.alloc();
    let chain_name = format!(in heap; "{name}.chain")?;
    let paper_name = format!(in heap; "{name}.paper")?;
    let chain = text_of(rt, &chain_name)?;
    let paper = text_of(rt, &paper_name)?;
    println!(rt; "{name}")?;
    let mut out = [0u8; 256];
    let Ok(length) = answer(heap, &chain, &paper, &mut out) else {
        bail!("the answer is too long");
    };
    rt.stdout().write_all(&out[..length])?;
    Ok(())
}

fn main(rt: HostRuntime) -> anyhow::Result<()> {
    let list = fs::read_to_string(&rt, "list")?;
    for name in list.lines() {
        run_case(&rt, name)?;
    }
    Ok(())
}
