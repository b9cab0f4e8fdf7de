// Tests of graph pages: sizes, refusals and their order, damaged pages, refused entries, round trips.
#![tactic(auto)]

#[cfg(test)]
mod damage;
#[cfg(test)]
mod entries;
#[cfg(test)]
mod format;
#[cfg(test)]
mod loads;
#[cfg(test)]
mod refusals;
#[cfg(test)]
mod trips;
