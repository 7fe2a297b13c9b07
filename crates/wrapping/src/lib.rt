// What import and export of text come to: theorems only.
#![tactic(auto)]
