// What the changes of a region do to the forest that it holds: laws alone.
#![tactic(auto)]
