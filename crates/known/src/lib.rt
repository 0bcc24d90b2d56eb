// The calls on a store without the test of the region: for measuring, and for a broker that alone writes its regions.
//
// On a store they do what the calls of `cjumbradi` do. On other bytes such a call ends and stays within what it was lent, but
// its answer is open. So they are a crate of their own: who links the library of `cjumbradi` alone has only calls that test. An
// archive shows the names of its own crate's entries and no others, so that a program may link both.
#![tactic(auto)]

mod retained;
mod subscriptions;
