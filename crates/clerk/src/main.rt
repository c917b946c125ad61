// The clerk tells the books of two owners: the first is opened, and in the second's week somebody has to give way.
#![tactic(auto)]

mod opening;
mod telling;
mod week;

fn main(rt: HostRuntime) -> anyhow::Result<()> {
    opening::tell(&rt)?;
    println!(rt)?;
    week::tell(&rt)
}
