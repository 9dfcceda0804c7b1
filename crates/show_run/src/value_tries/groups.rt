// The tries, gathered in groups of the same outcome.
ghost use Rattle.std.specs.Prelude.{◌≡◌, OnOk, IfOk};
ghost use Rattle.show_run.specs.ValueTries.Groups.{group_with, groups_with, new_group};

use crate::value_tries::outcomes::{Outcome, Try, is_same_outcome};
use crate::value_tries::spans::Spans;
use std::alloc::{AllocError, Global};

/// The tries that came to the same.
#[derive(Drop)]
pub struct Group {
    /// What they came to.
    pub outcome: Outcome,
    /// How many they are: at 2 ^ 64 - 1 the count stays as it is.
    pub count: u64,
    /// The least steps that one of them took.
    pub least: u64,
    /// The most steps that one of them took.
    pub most: u64,
    /// Their values, in the order in which they were tried.
    pub spans: Spans,
}

/// All tries so far.
#[derive(Drop)]
pub struct Gathering {
    /// The groups, in the order of the first try of each.
    pub groups: Vec<Group>,
    /// How many tries there were: at 2 ^ 64 - 1 the count stays as it is.
    pub tried: u64,
}

impl Gathering {
    ghost use Rattle.std.specs.Prelude.{List, [], ◌∷◌, ◌++◌, OnOk};
    ghost use Rattle.show_run.specs.ValueTries.Groups.{Gathered};
    ghost use Rattle.show_run.specs.declared.value_tries.outcomes.Try.{Try};

    /// No try.
    pub fn new(alloc: Global) -> Gathering
        ensures { Gathered result [] }
    {
        Gathering {
            groups: Vec::new(alloc),
            tried: 0,
        }
    }

    /// Adds a try after the others.
    pub fn add(&mut self, alloc: Global, one: Try) -> Result<(), AllocError>
        ensures { OnOk result ((tries : List Try) → Gathered self.old tries
            → Gathered self.new (tries ++ one ∷ [])) }
    {
        add_try(alloc, one, &mut self.groups)?;
        self.tried = self.tried.saturating_add(1);
        Ok(())
    }
}

// Adds a try: to the group of its outcome, or else as a group of its own after the others.
fn add_try(alloc: Global, one: Try, groups: &mut Vec<Group>) -> Result<(), AllocError>
    ensures { OnOk result (groups.new.items ≡ groups_with one groups.old.items) }
{
    for i in 0..groups.len() {
        if is_same_outcome(&groups[i].outcome, &one.outcome) {
            return add_to(one.value, one.steps, &mut groups[i]);
        }
    }
    let group = new_group(alloc, one)?;
    groups.push(group)?;
    Ok(())
}

// Adds a try of a value that took so many steps to a group.
fn add_to(value: u64, steps: u64, group: &mut Group) -> Result<(), AllocError>
    ensures { OnOk result (group.new ≡ group_with value steps group.old) }
{
    group.spans.add(value)?;
    group.count = group.count.saturating_add(1);
    group.least = group.least.min(steps);
    group.most = group.most.max(steps);
    Ok(())
}

// The group of one try.
fn new_group(alloc: Global, one: Try) -> Result<Group, AllocError>
    ensures { IfOk result (λ group. group ≡ new_group one) }
{
    let Try {
        value,
        steps,
        outcome,
    } = one;
    let mut spans = Spans::new(alloc);
    spans.add(value)?;
    Ok(Group {
        outcome,
        count: 1,
        least: steps,
        most: steps,
        spans,
    })
}
