// Definitions only: what each stage of sharing asks and leaves stands in specs/, and how one follows the other in proofs/.
#![tactic(auto)]
