// Drafts that are accepted or refused, and the strata of those that are accepted.
#![tactic(auto)]

#[cfg(test)]
mod answer;
#[cfg(test)]
mod cycles;
#[cfg(test)]
mod refusals;
#[cfg(test)]
mod schemas;
#[cfg(test)]
mod sets;
#[cfg(test)]
mod texts;
