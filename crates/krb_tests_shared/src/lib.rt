//! Tests of the replay books that threads share, over their public items.
#![tactic(auto)]

#[cfg(test)]
mod krb_shared_table_tests;
#[cfg(test)]
mod krb_shared_tests;
