ghost use Rattle.std.specs.Prelude.{ℕ, List, map};
ghost use Rattle.std.specs.List.{IsDistinct};
ghost use Rattle.net_base.specs.Address.{same_address};
ghost use Rattle.net_base.specs.declared.address.Addr.{Addr};
ghost use Rattle.pick_policy.specs.declared.rated.Rated.{Rated};
ghost use Rattle.pick_policy.specs.Least.{least_by, AreLeast};
ghost use Rattle.pick_policy.specs.Picks.{picked};
ghost use Rattle.pick_policy.specs.Scores.{scores_below, rates_below};

/// A law: of distinct candidates the picks are exactly those that fewer than `k` candidates are below, and they
/// rise. It is said of the definitions that the calls cite, so the body is empty.
pub fn picks_are_the_least()
    ensures by_score { (cands : List Addr) (k word : ℕ) → IsDistinct same_address cands
        → AreLeast (scores_below word) k cands (picked cands k word) }
    ensures by_rate { (cands : List Rated) (k word : ℕ) → IsDistinct same_address (map (λ r. r.addr) cands)
        → AreLeast (rates_below word) k cands (least_by (rates_below word) k cands) }
{}
