// The figures of CR 4 that are proved from the written definitions, one table under one statement.
#![tactic(auto)]
