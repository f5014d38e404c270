//! What a connection read, wrote and was answered: the definitions of a session and their laws, over any answering node.
#![tactic(auto)]
