// The sections of a batch in which replies are made side by side.
ghost use Rattle.std.specs.Prelude.{◌≡◌, ◌<◌, ◌≤◌, ◌*◌, ◌^◌, ◌++◌, ℕ, [], length, max, replicate, IfOk, OnOk, flat_map};
ghost use Rattle.std.specs.List.{AllByRecursion};
ghost use Rattle.std.specs.List.Sorted.{IsPermutation};
ghost use Rattle.bw_model.specs.declared.operations.Reply.TheVariants.{Absent};
ghost use Rattle.bw_look.specs.View.{TreeView};
ghost use Rattle.bw_tidy.specs.Findings.{GoOn};
ghost use Rattle.bw_answer.specs.Sections.{answers_in, answers_of, with_answers_from};
ghost use Rattle.bw_answer.specs.Sections.{AreAllMade, AreBySection, AreJoined, AreSectionsOf};
ghost use Rattle.bw_answer.specs.Sections.{IsAnswerFrom, IsCutOf, IsMade};

use crate::answers::{absent_replies, place_lists};
use crate::batch_reader::{Answer, PartAnswers};
use bw_key::Memory;
use bw_memory::Alloc;
use bw_model::Reply;
use bw_tidy::Findings;
use std::mem;
use std::thread::{Threads, for_each_mut};

// A section has so many places at the least, where there are several: to put answers at as many takes several times as
// long as the start of a thread.
const LEAST_PLACES: usize = 4096;

/// How the places of a batch are cut: into `count` sections, one behind the other, of `size` places each.
#[derive(Clone, Copy)]
pub(crate) struct Cut {
    pub(crate) size: usize,
    pub(crate) count: usize,
}

/// The answers to operations at the places of a section, of which `start` is the first: a list from each part of the
/// batch. Then its replies, unless there was no memory for them.
#[derive(Drop)]
pub(crate) struct Section {
    pub(crate) start: usize,
    pub(crate) lists: Vec<Vec<Answer, Alloc>, Alloc>,
    pub(crate) replies: Option<Vec<Reply, Alloc>>,
}

impl Cut {
    /// Cuts a batch of this length into at most so many sections, of 4,096 places at the least where they are several.
    pub(crate) fn new(len: usize, most: usize) -> Cut
        requires { len ≤ 2 ^ 40 }
        ensures cut { IsCutOf len result }
        ensures few { result.count ≤ max 1 most }
        ensures worth { 1 < result.count → result.count * 4096 ≤ len }
    {
        let count = (len / LEAST_PLACES).min(most).max(1);
        let size = len.div_ceil(count).max(1);
        Cut { size, count }
    }

    /// The answers of a list by the sections in which their places are: a list for each section.
    pub(crate) fn by_section(
        self,
        alloc: Alloc,
        answers: Vec<Answer, Alloc>,
    ) -> Result<Vec<Vec<Answer, Alloc>, Alloc>, Memory>
        requires size { 0 < self.size }
        requires there { AllByRecursion (IsAnswerFrom 0 (self.count * self.size)) answers.items }
        ensures lists { IfOk result (λ lists. AreBySection self lists.items) }
        ensures same { IfOk result (λ lists.
            IsPermutation answers.entry.items (flat_map (λ list. list.items) lists.items)) }
    {
        let mut lists = self.empty_lists(alloc, &answers)?;
        for answer in answers {
            let number = answer.place / self.size;
            lists[number].push(answer)?;
        }
        Ok(lists)
    }

    // A list for each section, with room for those of these answers that are in it.
    fn empty_lists(
        self,
        alloc: Alloc,
        answers: &[Answer],
    ) -> Result<Vec<Vec<Answer, Alloc>, Alloc>, Memory>
        requires { 0 < self.size }
        ensures count { IfOk result (λ lists. length lists.items ≡ self.count) }
        ensures empty { IfOk result (λ lists. AllByRecursion (λ list. list.items ≡ []) lists.items) }
    {
        let counts = self.counts(alloc, answers)?;
        let mut lists = Vec::with_capacity(alloc, self.count)?;
        for number in 0..self.count {
            let room = counts.get(number).copied().unwrap_or(0);
            lists.push(Vec::with_capacity(alloc, room)?)?;
        }
        Ok(lists)
    }

    // How many answers are in each section, so that no list grows.
    fn counts(self, alloc: Alloc, answers: &[Answer]) -> Result<Vec<usize, Alloc>, Memory>
        requires { 0 < self.size }
    {
        let mut counts = Vec::new(alloc);
        counts.resize(self.count, 0usize)?;
        for answer in answers {
            if let Some(count) = counts.get_mut(answer.place / self.size) {
                *count = count.saturating_add(1);
            }
        }
        Ok(counts)
    }

    // The sections, with no list yet.
    fn empty_sections(self, alloc: Alloc) -> Result<Vec<Section, Alloc>, Memory>
        requires { self.count * self.size < 2 ^ 64 }
        ensures sections { IfOk result (λ sections. AreSectionsOf self sections.items) }
        ensures empty { IfOk result (λ sections. AllByRecursion (λ section. answers_of section ≡ []) sections.items) }
    {
        let mut sections = Vec::with_capacity(alloc, self.count)?;
        for number in 0..self.count {
            let start = number * self.size;
            sections.push(Section {
                start,
                lists: Vec::new(alloc),
                replies: None,
            })?;
        }
        Ok(sections)
    }

    /// The answers of all parts by section. What was found in the parts is added to findings.
    pub(crate) fn gather(
        self,
        alloc: Alloc,
        parts: Vec<PartAnswers, Alloc>,
        findings: &mut Findings,
    ) -> Result<Vec<Section, Alloc>, Memory>
        requires room { self.count * self.size < 2 ^ 64 }
        requires lists { AllByRecursion (λ part. AreBySection self part.lists.items) parts.items }
        requires limits { AllByRecursion (λ part. part.findings.limits ≡ findings.old.limits) parts.items }
        ensures sections { IfOk result (λ sections. AreSectionsOf self sections.items) }
        ensures same { IfOk result (λ sections.
            IsPermutation (flat_map answers_in parts.entry.items) (flat_map answers_of sections.items)) }
        ensures findings { (tree : TreeView) (stamp : ℕ) →
            AllByRecursion (λ part. GoOn tree stamp findings.old part.findings) parts.entry.items →
            GoOn tree stamp findings.old findings.new }
    {
        let mut sections = self.empty_sections(alloc)?;
        for part in parts {
            self.add_lists(&mut sections, part.lists)?;
            findings.append(part.findings);
        }
        Ok(sections)
    }

    // Adds to each section the list of a part.
    fn add_lists(
        self,
        sections: &mut Vec<Section, Alloc>,
        lists: Vec<Vec<Answer, Alloc>, Alloc>,
    ) -> Result<(), Memory>
        requires sections { AreSectionsOf self sections.old.items }
        requires lists { AreBySection self lists.items }
        ensures sections { OnOk result (AreSectionsOf self sections.new.items) }
        ensures same { let added = flat_map (λ list. list.items) lists.entry.items in
            let before = flat_map answers_of sections.old.items in
            OnOk result (IsPermutation (before ++ added) (flat_map answers_of sections.new.items)) }
    {
        let mut number = 0;
        for list in lists {
            sections[number].lists.push(list)?;
            number += 1;
        }
        Ok(())
    }

    /// The replies at the places of all sections.
    pub(crate) fn replies<R: Threads + Sync>(
        self,
        rt: &R,
        alloc: Alloc,
        mut sections: Vec<Section, Alloc>,
    ) -> Result<Vec<Reply, Alloc>, Memory>
        requires count { 0 < self.count }
        requires room { self.count * self.size < 2 ^ 64 }
        requires sections { AreSectionsOf self sections.items }
        ensures { let none = replicate (self.count * self.size) Absent in
            let answers = flat_map answers_of sections.entry.items in
            IfOk result (λ replies. replies.items ≡ with_answers_from 0 none answers) }
    {
        self.make_replies(rt, alloc, &mut sections);
        joined(alloc, sections, self.count * self.size)
    }

    // Makes the replies of each section, each in a thread of its own where one can be made.
    fn make_replies<R: Threads + Sync>(self, rt: &R, alloc: Alloc, sections: &mut [Section])
        requires some { 0 < length sections.old }
        requires sections { AreSectionsOf self sections.old }
        ensures { AreAllMade self.size sections.old sections.new }
    {
        let size = self.size;
        let make = move |_number: usize, section: &mut Section|
            requires { AllByRecursion (IsAnswerFrom section.now.start size) (answers_of section.now) }
            ensures { IsMade size section.entry.now section.exit.now }
        { section.make_replies(alloc, size) };
        for_each_mut(rt, sections, sections.len(), &make);
    }
}

impl Section {
    // Makes the replies at the places of the section, which are so many.
    fn make_replies(&mut self, alloc: Alloc, size: usize)
        requires { AllByRecursion (IsAnswerFrom self.old.start size) (answers_of self.old) }
        ensures { IsMade size self.old self.new }
    {
        let lists = mem::replace(&mut self.lists, Vec::new(alloc));
        self.replies = replies_from(alloc, self.start, size, lists).ok();
    }
}

// So many replies from a place on, with the answers of lists at their places.
fn replies_from(
    alloc: Alloc,
    start: usize,
    size: usize,
    lists: Vec<Vec<Answer, Alloc>, Alloc>,
) -> Result<Vec<Reply, Alloc>, Memory>
    requires { AllByRecursion (IsAnswerFrom start size) (flat_map (λ list. list.items) lists.items) }
    ensures { let answers = flat_map (λ list. list.items) lists.entry.items in
        IfOk result (λ replies. replies.items ≡ with_answers_from start (replicate size Absent) answers) }
{
    let mut replies = absent_replies(alloc, size)?;
    place_lists(start, lists, &mut replies);
    Ok(replies)
}

// The replies of sections, one behind the other, in a list with room for so many.
fn joined(
    alloc: Alloc,
    sections: Vec<Section, Alloc>,
    len: usize,
) -> Result<Vec<Reply, Alloc>, Memory>
    ensures { IfOk result (λ replies. AreJoined sections.entry.items replies.items) }
{
    let mut replies = Vec::with_capacity(alloc, len)?;
    for section in sections {
        let mut more = section.replies.ok_or(Memory)?;
        replies.append(&mut more)?;
    }
    Ok(replies)
}
