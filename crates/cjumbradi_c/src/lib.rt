// The C interface as C links it: each export is the call of `cjumbradi` with its name and its contract.
#![tactic(auto)]

mod regions;
mod retained;
mod subscriptions;
mod texts;
