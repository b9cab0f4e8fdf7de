// Tests of the validator: worked houses, every refusal, and long lists of calls beside a plain reading of the rules.
#![tactic(auto)]

#[cfg(test)]
mod calls;
#[cfg(test)]
mod house;
#[cfg(test)]
mod late_show;
#[cfg(test)]
mod lists;
#[cfg(test)]
mod refusals;
#[cfg(test)]
mod schemas;
#[cfg(test)]
mod wander;
#[cfg(test)]
mod world;
