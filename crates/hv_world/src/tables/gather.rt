//! The lists of names that variables have for types.

ghost use Rattle.std.specs.Prelude.{◌≡◌, ◌∷◌, ◌++◌, [], map, option_map, codes, IsTrue, IfOk, OnOk};
ghost use Rattle.std.specs.List.{flat_map};
ghost use Rattle.hv_text.specs.Names.{text_of};
ghost use Rattle.hv_syntax.specs.Values.{formulas_of, effect};
ghost use Rattle.hv_syntax.specs.Views.{word_view, variable_view, formula_view, item_view};
ghost use Rattle.hv_syntax.specs.DeclarationViews.{task_view, method_view, action_view};
ghost use Rattle.hv_syntax.specs.DomainViews.{domain_view};
ghost use Rattle.hv_syntax.specs.ProblemViews.{problem_view};
ghost use Rattle.hv_world.specs.Names.{names, is_among};
ghost use Rattle.hv_world.specs.Eithers.{is_either, are_same, formula_variables, formulas_variables, item_variables, effect_variables, method_variables, action_variables, goal_variables, domain_variables, problem_variables, all_variables};
ghost use Rattle.hv_world.specs.inside.Tables.{names_in};
ghost use Rattle.hv_world.specs.inside.Gathers.{lists_in, EndsWith, AreGathered};

use hv_syntax::{
    ActionText, DomainText, FormulaText, ItemText, MethodText, Placed, ProblemText, TaskText,
    VariableText,
};
use hv_text::{Memory, Name};
use std::alloc::Global;

/// The names of words.
pub(crate) fn names_of<'s>(alloc: Global, words: &[Placed<'s>]) -> Result<Vec<Name<'s>>, Memory>
    ensures { IfOk result (λ v. names_in v ≡ names (map word_view words.now)) }
{
    let mut list = Vec::new(alloc);
    for word in words {
        list.push(word.name())?;
    }
    Ok(list)
}

// Whether `object` is among names.
fn has_object(words: &[Placed<'_>]) -> bool
    ensures { result ≡ is_among (names (map word_view words.now)) (codes "object") }
{
    for word in words {
        if word.name().is(b"object") {
            return true;
        }
    }
    false
}

// Whether names make a type of their own.
fn is_either(words: &[Placed<'_>]) -> bool
    ensures { result ≡ is_either (names (map word_view words.now)) }
{
    match words {
        [] => false,
        [_] => false,
        [_, _, ..] => !has_object(words),
    }
}

// Whether two lists have the same names.
fn are_same(list: &[Name<'_>], words: &[Placed<'_>]) -> bool
    ensures { result ≡ are_same (map text_of list.now) (names (map word_view words.now)) }
{
    if list.len() != words.len() {
        return false;
    }
    for place in 0..list.len() {
        if list[place] != words[place].name() {
            return false;
        }
    }
    true
}

// Whether the last of lists has these names: the variables of a group share them, and
// are noted once.
fn is_last(lists: &[Vec<Name<'_>>], words: &[Placed<'_>]) -> bool
    ensures { IsTrue result → EndsWith (map names_in lists.now) (names (map word_view words.now)) }
{
    match lists.last() {
        Some(last) => are_same(last, words),
        None => false,
    }
}

// Adds the names of a variable's type, where they make one of their own.
fn add_variable<'s>(
    alloc: Global,
    lists: &mut Vec<Vec<Name<'s>>>,
    variable: &VariableText<'s>,
) -> Result<(), Memory>
    ensures { OnOk result
        (AreGathered (lists_in lists.old) (variable_view variable.now ∷ []) (lists_in lists.new)) }
{
    let words = variable.types();
    if !is_either(words) {
        return Ok(());
    }
    if is_last(lists, words) {
        return Ok(());
    }
    let list = names_of(alloc, words)?;
    lists.push(list)?;
    Ok(())
}

fn add_variables<'s>(
    alloc: Global,
    lists: &mut Vec<Vec<Name<'s>>>,
    variables: &[VariableText<'s>],
) -> Result<(), Memory>
    ensures { OnOk result
        (AreGathered (lists_in lists.old) (map variable_view variables.now) (lists_in lists.new)) }
{
    for variable in variables {
        add_variable(alloc, lists, variable)?;
    }
    Ok(())
}

// Adds those of the variables of a formula.
#[cycle(formula)]
fn add_formula<'s>(
    alloc: Global,
    lists: &mut Vec<Vec<Name<'s>>>,
    formula: &FormulaText<'s>,
) -> Result<(), Memory>
    ensures { OnOk result
        (AreGathered (lists_in lists.old) (formula_variables (formula_view formula.now))
        (lists_in lists.new)) }
{
    match formula {
        FormulaText::Holds(_) => Ok(()),
        FormulaText::And(parts) => add_formulas(alloc, lists, parts),
        FormulaText::Or(parts) => add_formulas(alloc, lists, parts),
        FormulaText::Not(part) => add_formula(alloc, lists, part),
        FormulaText::Imply(premise, conclusion) => {
            add_formula(alloc, lists, premise)?;
            add_formula(alloc, lists, conclusion)
        }
        FormulaText::Forall(variables, part) => add_quantified(alloc, lists, variables, part),
        FormulaText::Exists(variables, part) => add_quantified(alloc, lists, variables, part),
        FormulaText::Equal(_, _) => Ok(()),
    }
}

#[cycle(formula)]
fn add_quantified<'s>(
    alloc: Global,
    lists: &mut Vec<Vec<Name<'s>>>,
    variables: &[VariableText<'s>],
    part: &FormulaText<'s>,
) -> Result<(), Memory>
    ensures { OnOk result
        (AreGathered (lists_in lists.old)
        (map variable_view variables.now ++ formula_variables (formula_view part.now))
        (lists_in lists.new)) }
{
    add_variables(alloc, lists, variables)?;
    add_formula(alloc, lists, part)?;
    Ok(())
}

#[cycle(formula)]
fn add_formulas<'s>(
    alloc: Global,
    lists: &mut Vec<Vec<Name<'s>>>,
    formulas: &[FormulaText<'s>],
) -> Result<(), Memory>
    ensures { OnOk result
        (AreGathered (lists_in lists.old)
        (formulas_variables (formulas_of (map formula_view formulas.now))) (lists_in lists.new)) }
{
    for formula in formulas {
        add_formula(alloc, lists, formula)?;
    }
    Ok(())
}

// Adds those of the variables of an effect.
#[cycle(effect)]
fn add_item<'s>(
    alloc: Global,
    lists: &mut Vec<Vec<Name<'s>>>,
    item: &ItemText<'s>,
) -> Result<(), Memory>
    ensures { OnOk result
        (AreGathered (lists_in lists.old) (item_variables (item_view item.now))
        (lists_in lists.new)) }
{
    match item {
        ItemText::Literal(_) => Ok(()),
        ItemText::Forall(variables, items) => add_for_all(alloc, lists, variables, items),
    }
}

#[cycle(effect)]
fn add_for_all<'s>(
    alloc: Global,
    lists: &mut Vec<Vec<Name<'s>>>,
    variables: &[VariableText<'s>],
    items: &[ItemText<'s>],
) -> Result<(), Memory>
    ensures { OnOk result
        (AreGathered (lists_in lists.old)
        (map variable_view variables.now ++ effect_variables (effect (map item_view items.now)))
        (lists_in lists.new)) }
{
    add_variables(alloc, lists, variables)?;
    add_effect(alloc, lists, items)?;
    Ok(())
}

#[cycle(effect)]
fn add_effect<'s>(
    alloc: Global,
    lists: &mut Vec<Vec<Name<'s>>>,
    items: &[ItemText<'s>],
) -> Result<(), Memory>
    ensures { OnOk result
        (AreGathered (lists_in lists.old) (effect_variables (effect (map item_view items.now)))
        (lists_in lists.new)) }
{
    for item in items {
        add_item(alloc, lists, item)?;
    }
    Ok(())
}

fn add_tasks<'s>(
    alloc: Global,
    lists: &mut Vec<Vec<Name<'s>>>,
    tasks: &[TaskText<'s>],
) -> Result<(), Memory>
    ensures { OnOk result
        (AreGathered (lists_in lists.old) (flat_map (λ t. t.parameters) (map task_view tasks.now))
        (lists_in lists.new)) }
{
    for task in tasks {
        add_variables(alloc, lists, task.parameters())?;
    }
    Ok(())
}

fn add_method<'s>(
    alloc: Global,
    lists: &mut Vec<Vec<Name<'s>>>,
    method: &MethodText<'s>,
) -> Result<(), Memory>
    ensures { OnOk result
        (AreGathered (lists_in lists.old) (method_variables (method_view method.now))
        (lists_in lists.new)) }
{
    add_variables(alloc, lists, method.parameters())?;
    add_formula(alloc, lists, method.precondition())?;
    Ok(())
}

fn add_methods<'s>(
    alloc: Global,
    lists: &mut Vec<Vec<Name<'s>>>,
    methods: &[MethodText<'s>],
) -> Result<(), Memory>
    ensures { OnOk result
        (AreGathered (lists_in lists.old) (flat_map method_variables (map method_view methods.now))
        (lists_in lists.new)) }
{
    for method in methods {
        add_method(alloc, lists, method)?;
    }
    Ok(())
}

fn add_action<'s>(
    alloc: Global,
    lists: &mut Vec<Vec<Name<'s>>>,
    action: &ActionText<'s>,
) -> Result<(), Memory>
    ensures { OnOk result
        (AreGathered (lists_in lists.old) (action_variables (action_view action.now))
        (lists_in lists.new)) }
{
    add_variables(alloc, lists, action.parameters())?;
    add_formula(alloc, lists, action.precondition())?;
    add_effect(alloc, lists, action.effect().items())?;
    Ok(())
}

fn add_actions<'s>(
    alloc: Global,
    lists: &mut Vec<Vec<Name<'s>>>,
    actions: &[ActionText<'s>],
) -> Result<(), Memory>
    ensures { OnOk result
        (AreGathered (lists_in lists.old) (flat_map action_variables (map action_view actions.now))
        (lists_in lists.new)) }
{
    for action in actions {
        add_action(alloc, lists, action)?;
    }
    Ok(())
}

fn add_domain<'s>(
    alloc: Global,
    lists: &mut Vec<Vec<Name<'s>>>,
    domain: &DomainText<'s>,
) -> Result<(), Memory>
    ensures { OnOk result
        (AreGathered (lists_in lists.old) (domain_variables (domain_view domain.now))
        (lists_in lists.new)) }
{
    add_tasks(alloc, lists, domain.tasks())?;
    add_methods(alloc, lists, domain.methods())?;
    add_actions(alloc, lists, domain.actions())?;
    Ok(())
}

fn add_goal<'s>(
    alloc: Global,
    lists: &mut Vec<Vec<Name<'s>>>,
    goal: Option<&FormulaText<'s>>,
) -> Result<(), Memory>
    ensures { OnOk result
        (AreGathered (lists_in lists.old)
        (goal_variables (option_map (λ g. formula_view g.now) goal.entry)) (lists_in lists.new)) }
{
    match goal {
        Some(goal) => add_formula(alloc, lists, goal),
        None => Ok(()),
    }
}

fn add_problem<'s>(
    alloc: Global,
    lists: &mut Vec<Vec<Name<'s>>>,
    problem: &ProblemText<'s>,
) -> Result<(), Memory>
    ensures { OnOk result
        (AreGathered (lists_in lists.old) (problem_variables (problem_view problem.now))
        (lists_in lists.new)) }
{
    add_variables(alloc, lists, problem.htn().parameters())?;
    add_goal(alloc, lists, problem.goal())?;
    Ok(())
}

/// The lists of names that make types of their own, as a domain and a problem have them.
///
/// # Errors
///
/// `Memory` where a growth was refused.
pub(crate) fn gathered<'s>(
    alloc: Global,
    domain: &DomainText<'s>,
    problem: &ProblemText<'s>,
) -> Result<Vec<Vec<Name<'s>>>, Memory>
    ensures { IfOk result
        (λ v. AreGathered [] (all_variables (domain_view domain.now) (problem_view problem.now))
        (lists_in v)) }
{
    let mut lists = Vec::new(alloc);
    add_domain(alloc, &mut lists, domain)?;
    add_problem(alloc, &mut lists, problem)?;
    Ok(lists)
}
