//! When a call that was answered is legal in a list of entries: definitions and their laws, over any answer.
#![tactic(auto)]
