// The gap report as a definition: the runs of held TSNs above the cumulative one, as offsets of 16 bits; and that it is the only one.
#![tactic(auto)]
