// The laws of the counts of scores.
ghost use Rattle.policy_rules.specs.ScoreRules.Scores.{CountsMatchScores, TestsMatchPolicy};

/// The counts say what the list of all scores says, and the tests on that list say what the policy says.
pub fn counts_decide()
    ensures counts { CountsMatchScores }
    ensures tests { TestsMatchPolicy }
{}
