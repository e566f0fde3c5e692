// The worked cases, as definitions and one claim: see specs/.
#![tactic(auto)]
