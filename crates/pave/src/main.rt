// `pave`: a readings file from standard input; its listing, or its one fault, to standard output.
#![tactic(auto)]

use std::io::Read;
use survey::pave::pave;

fn main(rt: HostRuntime) -> anyhow::Result<()> {
    run(&rt)
}

fn run(rt: &HostRuntime) -> anyhow::Result<()> {
    let mut file = Vec::new(rt.alloc());
    rt.stdin().read_to_end(&mut file)?;
    let text = pave(rt.alloc(), &file)?;
    rt.print(text)?;
    Ok(())
}
