// No code: every public contract determines its outcome, the contracts of `suite` are what the demands are proved of, and the table
// of worked values holds.
#![tactic(auto)]
