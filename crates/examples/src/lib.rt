// Tests of the library on examples worked by hand: both sides of each limit, the order of refusals, and what a refusal leaves alone. Four functions
// promise that the laws shut out the mistakes of specs/Mistakes.antt and specs/WrongStatements.antt, and that a statement asks its rules.
#![tactic(auto)]

ghost use Rattle.examples.specs.WrongStatements.{AllZeros, CentsMissing, ChargedTooLittle, ChargedTooMuch, FailureRuleMatters, InfeasibleRuleMatters, InfeasibleSubtracted, SharingRuleMatters};
ghost use Rattle.examples.specs.Mistakes.{ChargesAboveTop, ChargesNothing, FirstMemberGetsAll, RoundedAlone, UnitForNothing};

#[cfg(test)]
mod boards;
#[cfg(test)]
mod charges;
#[cfg(test)]
mod costs;
#[cfg(test)]
mod rosters;
#[cfg(test)]
mod shares;
#[cfg(test)]
mod statements;
#[cfg(test)]
mod texts;

pub fn unfair_parts_are_shut_out()
    ensures first_member_gets_all { FirstMemberGetsAll → ⊥ }
    ensures rounded_alone { RoundedAlone → ⊥ }
    ensures unit_for_nothing { UnitForNothing → ⊥ }
{}

pub fn charges_past_the_limits_are_shut_out()
    ensures charges_nothing { ChargesNothing → ⊥ }
    ensures charges_above_top { ChargesAboveTop → ⊥ }
{}

pub fn wrong_statements_are_shut_out()
    ensures cents_missing { CentsMissing }
    ensures infeasible_subtracted { InfeasibleSubtracted }
    ensures charged_too_little { ChargedTooLittle }
    ensures charged_too_much { ChargedTooMuch }
    ensures all_zeros { AllZeros }
{}

pub fn a_statement_without_rules_is_shut_out()
    ensures sharing { SharingRuleMatters }
    ensures failure { FailureRuleMatters }
    ensures infeasible { InfeasibleRuleMatters }
{}
