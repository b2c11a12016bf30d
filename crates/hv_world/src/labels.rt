//! The labels of a network.

ghost use Rattle.std.specs.Prelude.{◌≡◌, ℕ, List, not, map, is_some, IfOk};
ghost use Rattle.std.specs.List.{flat_map};
ghost use Rattle.hv_syntax.specs.Values.{Subtask};
ghost use Rattle.hv_syntax.specs.Views.{word_view};
ghost use Rattle.hv_syntax.specs.NetworkViews.{subtask_view, pair_view, network_view};
ghost use Rattle.hv_world.specs.Names.{number_or, place_in};
ghost use Rattle.hv_world.specs.Known.{Known, at_place};
ghost use Rattle.hv_world.specs.Networks.{labels, label_names, labelled, numbered_pair, written_by};
ghost use Rattle.hv_world.specs.Faults.{least, fault_if};
ghost use Rattle.hv_world.specs.declared.fault.StaticKind.TheVariants as kinds;
ghost use Rattle.hv_world.specs.StaticRules.{pair_faults, label_faults};
ghost use Rattle.hv_world.specs.inside.Tables.{places_by};
ghost use Rattle.hv_world.specs.inside.LabelViews.{numbers_by, holders, AreLabels};

use crate::checked::Checked;
use crate::fault::{Side, StaticKind, earlier, fault_if};
use crate::names::{Names, repeated_word};
use hv_syntax::{NetworkText, PairText, Placed, SubtaskText};
use hv_text::Memory;
use std::alloc::Global;

// Which subtask has which label: the labels as they are written, the place of each among them,
// beside it the number of the subtask that has it, and how many subtasks there are.
#[derive(Drop)]
struct Labels<'s> {
    words: Vec<Placed<'s>>,
    places: Names<'s>,
    holders: Vec<usize>,
    count: usize,
}

// The labels, as written.
fn label_words<'s>(alloc: Global, subtasks: &[SubtaskText<'s>]) -> Result<Vec<Placed<'s>>, Memory>
    ensures { IfOk result (λ v. map word_view v.items ≡ labels (map subtask_view subtasks.now)) }
{
    let mut words = Vec::new(alloc);
    for subtask in subtasks {
        if let Some(label) = subtask.label() {
            words.push(label)?;
        }
    }
    Ok(words)
}

// The numbers of the subtasks that have a label.
fn holders(alloc: Global, subtasks: &[SubtaskText<'_>]) -> Result<Vec<usize>, Memory>
    ensures { IfOk result (λ v. v.items ≡ holders 0 (map subtask_view subtasks.now)) }
{
    let mut numbers = Vec::new(alloc);
    for number in 0..subtasks.len() {
        if subtasks[number].label().is_some() {
            numbers.push(number)?;
        }
    }
    Ok(numbers)
}

impl<'s> Labels<'s> {
    // The labels of a network.
    fn of(alloc: Global, network: &NetworkText<'s>) -> Result<Labels<'s>, Memory>
        ensures { IfOk result (AreLabels (network_view network.now)) }
    {
        let subtasks = network.subtasks();
        let words = label_words(alloc, subtasks)?;
        let places = Names::of(alloc, &words)?;
        let holders = holders(alloc, subtasks)?;
        Ok(Labels {
            words,
            places,
            holders,
            count: subtasks.len(),
        })
    }

    // The number of the first subtask that has a label; for a label that none has, its fault and
    // the number behind the last.
    fn checked_number(&self, side: Side, word: Placed<'s>) -> Checked<usize>
        ensures value { result.value ≡ numbers_by self.now (word_view word.entry).text }
        ensures fault { result.fault
            ≡ fault_if (not (is_some (places_by self.now.places (word_view word.entry).text)))
            kinds.UnknownLabel side (word_view word.entry) }
    {
        let found = self.places.place(word.name());
        let is_label = found.is_some();
        Checked {
            value: self.number_at(found),
            fault: fault_if(!is_label, StaticKind::UnknownLabel, side, word),
        }
    }

    // The number of the subtask whose label stands at a place among the labels; without a place,
    // the number behind the last.
    fn number_at(&self, place: Option<usize>) -> usize
        ensures { result ≡ number_or self.now.count (at_place self.now.holders.items place) }
    {
        match place {
            Some(place) => match self.holders.get(place) {
                Some(number) => *number,
                None => self.count,
            },
            None => self.count,
        }
    }

    // The numbers of the two subtasks of a pair, and the first fault of its words.
    fn checked_pair(&self, side: Side, pair: PairText<'s>) -> Checked<(usize, usize)>
        ensures value { (xs : List Subtask) → numbers_by self.now ≡ labelled xs
            → result.value ≡ numbered_pair xs (pair_view pair.entry) }
        ensures fault { (k : Known) (ls : List (List ℕ))
            → places_by self.now.places ≡ place_in ls
            → result.fault ≡ least (pair_faults k side ls (pair_view pair.entry)) }
    {
        let before = self.checked_number(side, pair.earlier());
        let after = self.checked_number(side, pair.later());
        let fault = earlier(before.fault, after.fault);
        Checked {
            value: (before.value, after.value),
            fault,
        }
    }

    // The pairs of a network, as written, and the first fault of their words.
    fn numbered_pairs(
        &self,
        alloc: Global,
        side: Side,
        network: &NetworkText<'s>,
    ) -> Result<Checked<Vec<(usize, usize)>>, Memory>
        requires { AreLabels (network_view network.now) self.now }
        ensures value { IfOk result
            (λ c. c.value.items ≡ (written_by (network_view network.now)).pairs) }
        ensures fault { IfOk result
            (λ c. (k : Known) → c.fault
            ≡ least (flat_map (pair_faults k side (label_names (network_view network.now).subtasks))
            (network_view network.now).pairs)) }
    {
        let mut pairs = Checked::with_capacity(alloc, network.pairs().len())?;
        for pair in network.pairs() {
            pairs.push(self.checked_pair(side, *pair))?;
        }
        Ok(pairs)
    }
}

/// The pairs of a network's ordering with the numbers of the subtasks in place of their labels, as
/// written, and the first fault of its labels: one that stands twice, or a word of a pair that is
/// none. For a label that no subtask has, the number behind the last.
///
/// # Errors
///
/// `Memory` where a growth was refused.
pub(crate) fn checked_pairs<'s>(
    alloc: Global,
    side: Side,
    network: &NetworkText<'s>,
) -> Result<Checked<Vec<(usize, usize)>>, Memory>
    ensures value { IfOk result
        (λ c. c.value.items ≡ (written_by (network_view network.now)).pairs) }
    ensures fault { IfOk result
        (λ c. (k : Known) → c.fault ≡ least (label_faults k side (network_view network.now))) }
{
    let labels = Labels::of(alloc, network)?;
    let kind = StaticKind::DuplicateLabel;
    let repeated = repeated_word(&labels.places, &labels.words, kind, side);
    let pairs = labels.numbered_pairs(alloc, side, network)?;
    Ok(Checked {
        value: pairs.value,
        fault: earlier(repeated, pairs.fault),
    })
}
