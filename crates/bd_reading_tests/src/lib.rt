//! Tests of what is written of trees, cases and trails, over public calls. What texts read as is tested by rows.
#![tactic(auto)]

#[cfg(test)]
mod trees;
#[cfg(test)]
mod values;
