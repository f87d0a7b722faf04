// Document 01's starred known answers as one proposition (specs/Known.antt), further answers at the ends of guards
// and ranges as a second (specs/Further.antt), and what C's calls of a train and a band return and leave as a third
// (specs/Exports.antt). proofs/ has the checker compute them. There is no code here.
#![tactic(auto)]
