// Worked trials of the library, printed one after the other.
#![tactic(auto)]

mod bearings;
mod narrowed;
mod remainder;
mod square;
mod watch;

fn main(rt: HostRuntime) -> anyhow::Result<()> {
    run(&rt)
}

fn run(rt: &impl Print) -> anyhow::Result<()> {
    watch::run(rt)?;
    square::run(rt)?;
    narrowed::run(rt)?;
    bearings::run(rt)
}
