//! What every run of an index promises: its answers, its slots and its waiting.

#![tactic(auto)]
