// What planning answers and leaves: definitions, their laws and evaluated cases. There is no code here.

#![tactic(auto)]
