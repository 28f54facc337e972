// The benches over our two stores, and one list of calls on them and on a bench over any other store.
#![tactic(auto)]

pub mod benches;
pub mod sitting;
#[cfg(test)]
mod trials;
