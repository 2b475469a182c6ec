// The table's cases, three lines each: a name, a file, and what is to be printed for it.
use crate::escaped::unescaped;
use std::alloc::Global;
use std::fs;
use survey::pave::pave;

// Whether the library prints for a file what the table says.
fn agrees(alloc: Global, file: &str, output: &str) -> anyhow::Result<bool> {
    let bytes = unescaped(alloc, file.as_bytes())?;
    let expected = unescaped(alloc, output.as_bytes())?;
    let text = pave(alloc, &bytes)?;
    Ok(text.as_bytes() == expected.as_slice())
}

fn named<'a>(line: Option<&'a str>, mark: &str) -> &'a str {
    line.and_then(|line| line.strip_prefix(mark)).unwrap_or("")
}

pub(crate) fn run(rt: &HostRuntime) -> anyhow::Result<()> {
    let table = fs::read_to_string(rt, "cases.txt")?;
    let mut lines = table.lines();
    let mut cases: u32 = 0;
    let mut differing: u32 = 0;
    while let Some(line) = lines.next() {
        let name = named(Some(line), "# ");
        let file = named(lines.next(), "< ");
        let output = named(lines.next(), "> ");
        cases = cases.saturating_add(1);
        if !agrees(rt.alloc(), file, output)? {
            differing = differing.saturating_add(1);
            println!(rt; "differs: {name}")?;
        }
    }
    println!(rt; "{cases} files, {differing} differ")?;
    Ok(())
}
