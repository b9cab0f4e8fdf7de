// Tests of the triple stores against an independent list of triples, generic over the kind of store.
#![tactic(auto)]

#[cfg(test)]
mod model;
#[cfg(test)]
mod row_tests;
#[cfg(test)]
mod runs;
#[cfg(test)]
mod tests;
#[cfg(test)]
mod walk_tests;
