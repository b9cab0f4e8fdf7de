// Worked examples, each with the typing that its text tells.
#![tactic(auto)]

#[cfg(test)]
mod accounts;
#[cfg(test)]
mod builder;
#[cfg(test)]
mod example;
#[cfg(test)]
mod extra;
#[cfg(test)]
mod numbers;
#[cfg(test)]
mod recursion;
#[cfg(test)]
mod splits;
#[cfg(test)]
mod trace;
#[cfg(test)]
mod tracker;
