// Shows what the library makes of a housing with two galleries that pass each other, step by step.
#![tactic(auto)]

mod corners;
mod cubes;
mod drawings;
mod housing;
mod scans;
mod totals;
mod trays;

fn main(rt: HostRuntime) -> anyhow::Result<()> {
    cubes::show(&rt)?;
    scans::show(&rt)?;
    drawings::show(&rt)?;
    totals::show(&rt)?;
    corners::show(&rt)?;
    trays::show(&rt)
}
