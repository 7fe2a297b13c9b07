// The files of the bench set (Rules 8.1, 8.4), files that detect slips (Rule 8.5) and files that
// detect a wrong number, each with what reading it returns. There is no code here: specs/ has the
// files, and in proofs/ each is computed from the definition of reading.
#![tactic(auto)]
