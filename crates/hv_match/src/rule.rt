//! What a search chooses from, and what it wants.
ghost use Rattle.std.specs.Prelude.{◌≡◌, ◌≢◌, ◌+◌, ◌<◌, ◌≤◌, ◌^◌, [], ℕ, List, length, take, IfSome, IsSome, MatchBool, false, true};
ghost use Rattle.hv_lists.specs.Lists.{Once};
ghost use Rattle.hv_match.specs.inside.Search.{Search, ArePassed, IsChoice, IsPath, IsWithin, NothingWholeBegins};

/// What a search chooses from, and what it wants.
pub(crate) trait Rule {
    /// What is chosen from, and what is wanted.
    ghost search: { Self → Search };

    /// Whether so many choices are a whole one.
    fn is_whole(&self, count: usize) -> bool
        ensures { MatchBool result (count ≡ (search self.now).levels)
            (count ≢ (search self.now).levels) };

    /// Whether the choice at a level is one of those that differ, as they do in all that is wanted.
    fn is_distinct(&self, level: usize) -> bool
        ensures level { MatchBool result (level < (search self.now).distinct)
            ((search self.now).distinct ≤ level) }
        ensures wanted { (q : List ℕ) → (search self.now).good q ≡ true
            → Once (take (search self.now).distinct q) };

    /// The choice of a number, if there are so many.
    fn option(&self, chosen: &[usize], number: usize) -> Option<usize>
        requires path { IsPath (search self.now).options [] chosen.now }
        requires short { length chosen.now < (search self.now).levels }
        ensures choice { IsChoice ((search self.now).options chosen.now) number result }
        ensures small { IsSome result → number + 1 < 2 ^ 64 }
        ensures within { IfSome result (IsWithin (search self.now) chosen.now) };

    /// Says no only where nothing that is wanted begins with what was chosen.
    fn is_hopeful(&self, chosen: &[usize]) -> bool
        requires path { IsPath (search self.now).options [] chosen.now }
        requires short { length chosen.now ≤ (search self.now).levels }
        ensures { result ≡ false → NothingWholeBegins (search self.now) chosen.now };

    /// The number of a choice up to which, from another on, nothing that is wanted begins with what
    /// was chosen and any of the choices. It may be told too low.
    fn skip(&self, chosen: &[usize], number: usize) -> usize
        requires path { IsPath (search self.now).options [] chosen.now }
        requires short { length chosen.now < (search self.now).levels }
        ensures { ArePassed (search self.now) chosen.now number result };

    fn is_good(&self, chosen: &[usize]) -> bool
        requires path { IsPath (search self.now).options [] chosen.now }
        requires whole { length chosen.now ≡ (search self.now).levels }
        requires once { Once (take (search self.now).distinct chosen.now) }
        ensures { result ≡ (search self.now).good chosen.now };
}
