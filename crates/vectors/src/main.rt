// Runs worked examples and cases at the limits through the library, and prints a line to each: what was tried, and what came
// out. What it is to print stands in the file `stdout` beside `src`.
#![tactic(auto)]

mod commands;
mod frames;
mod houses;
mod shown;
mod stretches;

fn run(rt: &HostRuntime) -> anyhow::Result<()> {
    let frames = frames::run(rt)?;
    let commands = commands::run(rt)?;
    let houses = houses::run(rt)?;
    let stretches = stretches::run(rt)?;
    let tried = [frames, commands, houses, stretches]
        .iter()
        .fold(0, |sum: usize, &count| sum.saturating_add(count));
    println!(rt; "{tried} tried")?;
    Ok(())
}

fn main(rt: HostRuntime) -> anyhow::Result<()> {
    run(&rt)
}
