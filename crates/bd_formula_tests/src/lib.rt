//! Tests of the way from a design to clauses, and back to a case, over public calls alone.
#![tactic(auto)]

#[cfg(test)]
mod clauses;
#[cfg(test)]
mod diverse;
#[cfg(test)]
mod equality;
#[cfg(test)]
mod function;
#[cfg(test)]
mod graphs;
#[cfg(test)]
mod lifting;
#[cfg(test)]
mod memory;
#[cfg(test)]
mod numbers;
#[cfg(test)]
mod symbolic;
#[cfg(test)]
mod terms;
#[cfg(test)]
mod texts;
#[cfg(test)]
mod truths;
