//! A place in a search.
ghost use Rattle.std.specs.Prelude.{◌≡◌, ◌+◌, ◌<◌, ◌^◌, ◌++◌, ◌∷◌, ◌↔◌, [], length, slice_get, OnOk, OnErr, IfOk, IsTrue, Some, true, false};
ghost use Rattle.hv_match.specs.inside.Search.{Differs, IsChoice, IsWithin, NothingBegins};
ghost use Rattle.hv_match.specs.inside.States.{HasFound, HasLeft, IsFrontOf, IsNearer, IsNoFarther, IsNoted, IsPlaceIn, KeepsComing, LeavesOut, SameButTable, SameChoices, SameRest};

use crate::rule::Rule;
use std::alloc::AllocError;

/// What was chosen so far, the number of each choice, the number of the next one to try, and
/// whether all is over. For each of the choices that differ, `made_at` has the level at which it
/// was made last; whether it stands there still, `chosen` says, so that nothing is taken back.
#[derive(Drop)]
pub(crate) struct State {
    pub(crate) chosen: Vec<usize>,
    pub(crate) numbers: Vec<usize>,
    pub(crate) made_at: Vec<usize>,
    pub(crate) next: usize,
    pub(crate) is_over: bool,
}

/// Leaves the branch, whatever it has still to give, for the next one.
pub(crate) fn back<R: Rule>(rule: &R, at: &mut State)
    requires place { IsPlaceIn (R.search rule.now) at.old }
    requires running { at.old.is_over ≡ false }
    ensures place { IsPlaceIn (R.search rule.now) at.new }
    ensures coming { HasLeft (R.search rule.now) at.old at.new }
    ensures steps { IsNearer (R.search rule.now) at.old at.new }
    ensures front { IsFrontOf at.old.chosen.items at.new.chosen.items }
{
    match at.numbers.pop() {
        Some(number) => {
            let _ = at.chosen.pop();
            at.next = number + 1;
        }
        None => at.is_over = true,
    }
}

/// Leaves all branches that begin with the first so many of the choices that stand.
pub(crate) fn leave<R: Rule>(rule: &R, at: &mut State, count: usize)
    requires { IsPlaceIn (R.search rule.now) at.old }
    ensures place { IsPlaceIn (R.search rule.now) at.new }
    ensures coming { LeavesOut (R.search rule.now) count at.old at.new }
{
    while !at.is_over && count <= at.chosen.len() {
        back(rule, at);
    }
}

/// Makes a choice, the next one to try.
fn descend(at: &mut State, choice: usize) -> Result<(), AllocError>
    ensures ok { OnOk result (at.new.chosen.items ≡ at.old.chosen.items ++ choice ∷ []) }
    ensures number { OnOk result (at.new.numbers.items ≡ at.old.numbers.items ++ at.old.next ∷ []) }
    ensures next { OnOk result (at.new.next ≡ 0) }
    ensures err { OnErr result (SameChoices at.old at.new) }
    ensures same { SameRest at.old at.new }
{
    at.numbers.push(at.next)?;
    if let Err(_) = at.chosen.push(choice) {
        let _ = at.numbers.pop();
        return Err(AllocError);
    }
    at.next = 0;
    Ok(())
}

// Whether a choice stands at a level.
fn stands(chosen: &[usize], level: usize, choice: usize) -> bool
    ensures { IsTrue result ↔ slice_get chosen.now level ≡ Some choice }
{
    match chosen.get(level) {
        Some(other) => *other == choice,
        None => false,
    }
}

// Whether a choice would not differ from one that stands.
fn is_made<R: Rule>(rule: &R, at: &State, choice: usize) -> bool
    requires place { IsPlaceIn (R.search rule.now) at.now }
    requires within { IsWithin (R.search rule.now) at.now.chosen.items choice }
    ensures made { result ≡ true → NothingBegins (R.search rule.now)
        (at.now.chosen.items ++ choice ∷ []) }
    ensures other { result ≡ false → Differs (R.search rule.now) at.now.chosen.items choice }
{
    rule.is_distinct(at.chosen.len()) && stands(&at.chosen, at.made_at[choice], choice)
}

// Keeps in mind at which level a choice is made.
fn note<R: Rule>(rule: &R, at: &mut State, choice: usize)
    requires place { IsPlaceIn (R.search rule.now) at.old }
    requires within { IsWithin (R.search rule.now) at.old.chosen.items choice }
    requires other { Differs (R.search rule.now) at.old.chosen.items choice }
    ensures told { IsNoted (R.search rule.now) at.old choice at.new }
    ensures wide { length at.new.made_at.items ≡ (R.search rule.now).width }
    ensures same { SameButTable at.old at.new }
{
    let level = at.chosen.len();
    if rule.is_distinct(level) {
        at.made_at[choice] = level;
    }
}

// Passes choices over that the rule says lead to nothing.
fn skip<R: Rule>(rule: &R, at: &mut State)
    requires place { IsPlaceIn (R.search rule.now) at.old }
    ensures place { IsPlaceIn (R.search rule.now) at.new }
    ensures coming { KeepsComing (R.search rule.now) at.old at.new }
    ensures steps { IsNoFarther (R.search rule.now) at.old at.new }
{
    if at.is_over || rule.is_whole(at.chosen.len()) {
        return;
    }
    at.next = rule.skip(&at.chosen, at.next);
}

// Makes a choice, or passes it over, and those behind it that are known to lead to nothing too.
fn follow<R: Rule>(rule: &R, at: &mut State, choice: usize) -> Result<(), AllocError>
    requires place { IsPlaceIn (R.search rule.now) at.old }
    requires running { at.old.is_over ≡ false }
    requires short { length at.old.chosen.items < (R.search rule.now).levels }
    requires choice { IsChoice ((R.search rule.now).options at.old.chosen.items) at.old.next
        (Some choice) }
    requires small { at.old.next + 1 < 2 ^ 64 }
    requires within { IsWithin (R.search rule.now) at.old.chosen.items choice }
    ensures place { IsPlaceIn (R.search rule.now) at.new }
    ensures coming { KeepsComing (R.search rule.now) at.old at.new }
    ensures steps { OnOk result (IsNearer (R.search rule.now) at.old at.new) }
{
    if is_made(rule, at, choice) {
        at.next += 1;
        return Ok(());
    }
    note(rule, at, choice);
    descend(at, choice)?;
    if !rule.is_hopeful(&at.chosen) {
        back(rule, at);
        skip(rule, at);
    }
    Ok(())
}

/// One step: makes the next choice, or passes it over, or goes back.
pub(crate) fn forward<R: Rule>(rule: &R, at: &mut State) -> Result<(), AllocError>
    requires place { IsPlaceIn (R.search rule.now) at.old }
    requires running { at.old.is_over ≡ false }
    requires short { length at.old.chosen.items < (R.search rule.now).levels }
    ensures place { IsPlaceIn (R.search rule.now) at.new }
    ensures coming { KeepsComing (R.search rule.now) at.old at.new }
    ensures steps { OnOk result (IsNearer (R.search rule.now) at.old at.new) }
{
    match rule.option(&at.chosen, at.next) {
        Some(choice) => follow(rule, at, choice)?,
        None => back(rule, at),
    }
    Ok(())
}

/// Goes on to the next list that is wanted, and says whether there is one.
pub(crate) fn find<R: Rule>(rule: &R, at: &mut State) -> Result<bool, AllocError>
    requires { IsPlaceIn (R.search rule.now) at.old }
    ensures place { IsPlaceIn (R.search rule.now) at.new }
    ensures coming { KeepsComing (R.search rule.now) at.old at.new }
    ensures found { IfOk result (HasFound (R.search rule.now) at.new) }
{
    while !at.is_over {
        if rule.is_whole(at.chosen.len()) {
            if rule.is_good(&at.chosen) {
                return Ok(true);
            }
            back(rule, at);
        } else {
            forward(rule, at)?;
        }
    }
    Ok(false)
}
