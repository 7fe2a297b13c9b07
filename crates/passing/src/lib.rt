// Every accepted file passes the check of an upload: theorems only.
#![tactic(auto)]
