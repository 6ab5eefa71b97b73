// The figures of document 01 that are proved from the written definitions, one table under one statement, and those of CR 2, another.
#![tactic(auto)]
