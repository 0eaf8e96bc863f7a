// The rules of the auction as definitions, and what is proved of them. The code that follows them stands in the crates above.
#![tactic(auto)]
