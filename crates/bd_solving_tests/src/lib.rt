//! Tests of clauses, of logs and their check, of propagation and of solvers, over public calls that no words reach.
#![tactic(auto)]

#[cfg(test)]
mod clauses;
#[cfg(test)]
mod formulas;
#[cfg(test)]
mod logs;
#[cfg(test)]
mod propagation;
#[cfg(test)]
mod solvers;
