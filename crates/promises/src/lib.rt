// The promises of the whole, over the contracts of the crates below: theorems only, in specs/. No function stands here, and no function's
// proof needs them.
#![tactic(auto)]
