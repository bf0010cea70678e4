// What each QSE is paid, charged and given as its share of the cost: the six amounts of a statement.
//
// `Statement::work_out` is generic in one sharing rule and two default rules. It promises the rows defined in specs/Amounts.antt and when it refuses,
// and the laws in specs/Laws.antt: all amounts add up to zero, each cost share is less than one cent from its exact share, and each charge lies
// between the day-ahead price and the top price. They are proved from the laws that every rule keeps, and no proof here names a rule.
#![tactic(auto)]

pub mod amounts;
mod costs;
mod hour;
mod own;
mod shares;
pub mod statement;
