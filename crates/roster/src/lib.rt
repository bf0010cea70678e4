// The roster: who is enrolled in the hour, and what is filed of each.
//
// The roster's own type promises its limits: at most 64 QSEs, their numbers distinct and not 0, each total over the roster at most 200,000, and no
// QSE with more arranged day-ahead than it owes. Filing changes the record of the QSE named and no other, and asks nothing of a caller.
#![tactic(auto)]

pub mod kind;
pub mod limits;
pub mod records;
pub mod roster;
pub mod side;
