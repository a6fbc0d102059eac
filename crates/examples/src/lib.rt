// No code: the table of worked examples (specs/Table.antt) is about the definitions of the crates below.

#![tactic(auto)]
