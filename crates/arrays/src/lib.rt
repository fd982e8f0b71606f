// Arrays filled from the front: only their definition and its laws, for the loops above that fill them.

#![tactic(auto)]
