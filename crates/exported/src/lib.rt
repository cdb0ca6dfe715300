// Exports for C: opening a scan, and drawing it into numbers or into text.
#![tactic(auto)]

mod asking;
mod drawing_on;
mod opening;
mod records;
mod refusal;
#[cfg(test)]
mod tests;
mod text;
mod told;
