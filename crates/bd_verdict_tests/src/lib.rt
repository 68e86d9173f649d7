//! Tests of verdicts over public calls that no words reach: what a solver's answer comes to, also where it lies,
//! verdicts by the plain solver, and cases that are judged by a completion.
#![tactic(auto)]

#[cfg(test)]
mod judging;
#[cfg(test)]
mod settling;
#[cfg(test)]
mod verdicts;
