// The search for a path to a subtree that was written already, `find_path` of tree_cache.rs: definitions and laws alone.
#![tactic(auto)]
