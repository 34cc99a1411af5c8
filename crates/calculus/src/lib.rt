// What a flow means stands in specs/: this crate has no code of its own.
#![tactic(auto)]
