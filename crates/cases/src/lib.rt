// Examples of what the other crates do, run as tests; nothing here is for use.
#![tactic(auto)]

#[cfg(test)]
mod block;
#[cfg(test)]
mod cubes;
#[cfg(test)]
mod drawings;
#[cfg(test)]
mod inputs;
#[cfg(test)]
mod openings;
#[cfg(test)]
mod outputs;
#[cfg(test)]
mod places;
#[cfg(test)]
mod programs;
#[cfg(test)]
mod relays;
#[cfg(test)]
mod scans;
#[cfg(test)]
mod streams;
#[cfg(test)]
mod texts;
#[cfg(test)]
mod trays;
