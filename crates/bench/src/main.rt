// Work for the comparison with C: feeds over words, feeds over enclosed values, sheets, and readings of a materials file, each as
// often as the arguments say. The file is standard input; its first record is the filter.
#![tactic(auto)]

mod digest;
mod feeds;
mod readings;
mod sheets;

use crate::feeds::feed_all;
use crate::readings::read_all;
use crate::sheets::sheet_all;
use anyhow::anyhow;
use kinds::enclosures::EnclosedKind;
use kinds::words::WordKind;
use materials::read::read;
use std::env;
use std::io::Read;

// The four counts of the arguments; one that is absent is 0.
fn counts(rt: &HostRuntime) -> anyhow::Result<[u64; 4]> {
    let mut counts = [0u64; 4];
    for (count, arg) in counts.iter_mut().zip(env::args(rt)?.skip(1)) {
        *count = arg.as_str().parse()?;
    }
    Ok(counts)
}

fn run(rt: &HostRuntime) -> anyhow::Result<()> {
    let heap = rt.alloc();
    let [words, enclosed, sheets, readings] = counts(rt)?;
    let mut file = Vec::new(heap);
    rt.stdin().take(65001).read_to_end(&mut file)?;
    let records = read(heap, &file).map_err(|_| anyhow!("the file is refused"))?;
    let record = records
        .first()
        .ok_or_else(|| anyhow!("the file has no record"))?;
    println!(rt; "words {}", feed_all(heap, WordKind, record, words)?)?;
    println!(rt;
        "enclosed {}",
        feed_all(heap, EnclosedKind, record, enclosed)?
    )?;
    println!(rt; "sheets {}", sheet_all(heap, record, sheets)?)?;
    println!(rt; "readings {}", read_all(heap, &file, readings))?;
    Ok(())
}

fn main(rt: HostRuntime) -> anyhow::Result<()> {
    run(&rt)
}
