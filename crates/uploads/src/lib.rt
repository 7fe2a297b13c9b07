// What the check of an upload comes to: theorems only.
#![tactic(auto)]
