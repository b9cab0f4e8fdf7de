// Tests of the check of one node: worked cases, and a comparison with all splits enumerated.
#![tactic(auto)]

#[cfg(test)]
mod cases;
#[cfg(test)]
mod splits;
#[cfg(test)]
mod tests;
