// Runs the table of readings files in data/cases.txt through the library, and tells which outputs differ.
#![tactic(auto)]

mod escaped;
mod table;

fn main(rt: HostRuntime) -> anyhow::Result<()> {
    table::run(&rt)
}
