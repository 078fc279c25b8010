// Theorems only, about the form of networks and images: they stand in proofs/, and the forms that they speak of in specs/.
#![tactic(auto)]
