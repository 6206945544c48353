#![tactic(auto)]
// No code: what is promised of the machine and of the archive stands in specs/, under the sentences of docs/RULES.md with
// their numbers, and all in one record, specs/Promised.antt. The proofs stand in proofs/, and Promised.antt there has the
// record's value.
