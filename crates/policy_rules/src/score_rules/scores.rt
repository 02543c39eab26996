// The scores of shown moves, and what the policy says of them.
ghost use Rattle.std.specs.Prelude.{◌≡◌, ◌↔◌, IsTrue, List, [], ◌∷◌};
ghost use Rattle.policy_rules.specs.declared.setting_rules.settings.Settings.{Settings as SomeSettings};
ghost use Rattle.policy_rules.specs.SettingRules.Policy.{IsProper};
ghost use Rattle.policy_rules.specs.ScoreRules.Scores.{Score, Resigns, AcceptsDraw, lost_bound, is_at_most, run_after, no_scores, after_shown, score_counts, resigns_by, accepts_by};

use crate::setting_rules::settings::{MOST_MOVES, Settings};

/// Counts the scores of the moves that the engine showed, as far as the policy asks.
///
/// A score is in hundredths of a pawn, as the engine sees it; a move may be shown without one.
/// The contracts speak of the list of all scores since they were last cleared, the newest first:
/// `counted settings scores` is what stands for that list.
#[derive(Clone, Copy)]
pub struct Scores {
    settings: Settings,
    // how many of the last scores are bad enough to resign, and how many no better than even
    lost: u32,
    level: u32,
}

fn is_at_most(bound: i64, score: Option<i64>) -> bool
    ensures { result ≡ is_at_most bound score }
{
    score.is_some_and(|value| value <= bound)
}

fn run_after(passes: bool, run: u32) -> u32
    ensures { result ≡ run_after passes run }
{
    if !passes {
        0
    } else if run < MOST_MOVES {
        run + 1
    } else {
        run
    }
}

impl Scores {
    /// No scores.
    pub fn new(settings: &Settings) -> Scores
        ensures { result ≡ score_counts settings.now [] }
    {
        Scores {
            settings: *settings,
            lost: 0,
            level: 0,
        }
    }

    /// A move was shown with this score.
    pub fn shown(&mut self, score: Option<i64>)
        ensures after { self.new ≡ after_shown self.old score }
        ensures counts { (settings : SomeSettings) (scores : List Score)
            → self.old ≡ score_counts settings scores
            → self.new ≡ score_counts settings (score ∷ scores) }
    {
        let bound = -i64::from(self.settings.resign_score);
        self.lost = run_after(is_at_most(bound, score), self.lost);
        self.level = run_after(is_at_most(0, score), self.level);
    }

    /// Forgets all scores.
    pub fn clear(&mut self)
        ensures after { self.new ≡ no_scores self.old.settings }
        ensures counts { (settings : SomeSettings) (scores : List Score)
            → self.old ≡ score_counts settings scores → self.new ≡ score_counts settings [] }
    {
        self.lost = 0;
        self.level = 0;
    }

    /// True if the game is resigned after the move that was shown last.
    pub fn resigns(&self) -> bool
        ensures value { result ≡ resigns_by self.now }
        ensures exact { (settings : SomeSettings) (scores : List Score) → IsProper settings
            → self.now ≡ score_counts settings scores → IsTrue result ↔ Resigns settings scores }
    {
        self.settings.resign && self.lost >= self.settings.resign_moves
    }

    /// True if a draw that the opponent offers is accepted.
    pub fn accepts_draw(&self) -> bool
        ensures value { result ≡ accepts_by self.now }
        ensures exact { (settings : SomeSettings) (scores : List Score) → IsProper settings
            → self.now ≡ score_counts settings scores
            → IsTrue result ↔ AcceptsDraw settings scores }
    {
        self.level >= self.settings.resign_moves
    }
}
