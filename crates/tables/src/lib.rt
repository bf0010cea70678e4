// What the board, the roster and a statement have in common in memory: a table of a fixed number of places with a count beside it. There is no code
// here: a type of its own would be generic in what stands in it, and the toolchain wants no array of a type parameter in a struct.
#![tactic(auto)]
