//! What holds of the index after every call, and that every call keeps it.

#![tactic(auto)]
