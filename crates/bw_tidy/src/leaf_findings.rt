// What is found of leaves while a batch is answered.
ghost use Rattle.std.specs.Prelude.{◌≡◌, ℕ, true, IfOk, None, map};
ghost use Rattle.std.specs.List.{AllByRecursion, Contains};
ghost use Rattle.bw_shape.specs.Limits.{LimitsView};
ghost use Rattle.bw_look.specs.View.{TreeView};
ghost use Rattle.bw_tidy.specs.Findings.{AreFindings, AreLeft, FitsAt, GoOn, IsFinding};

use crate::findings::{Finding, inspect};
use bw_key::Memory;
use bw_memory::Alloc;
use bw_page::PageId;
use bw_shape::Limits;
use bw_tree::Tree;

/// What was found of leaves that are read anyway, one after another in the order of keys: at which of them tidying has nothing
/// to do, and what the chains of others make of them. A leaf of which nothing is told is left to tidying.
#[derive(Drop)]
pub struct Findings {
    limits: Limits,
    // whether leaves are looked at
    looks: bool,
    // leaves at which there is nothing to do
    fitting: Vec<PageId, Alloc>,
    // the others
    due: Vec<Finding, Alloc>,
}

impl Findings {
    /// Nothing, of leaves that are kept to these limits. Where `looks` is false, it stays so.
    pub fn new(alloc: Alloc, limits: Limits, looks: bool) -> Findings
        ensures limits { result.limits ≡ limits }
        ensures found { (tree : TreeView) (stamp : ℕ) → AreFindings tree stamp result }
    {
        Findings {
            limits,
            looks,
            fitting: Vec::new(alloc),
            due: Vec::new(alloc),
        }
    }

    /// Nothing, of leaves that are kept to the same limits, with the lists on `alloc`.
    pub fn again(&self, alloc: Alloc) -> Findings
        ensures limits { result.limits ≡ self.now.limits }
        ensures found { (tree : TreeView) (stamp : ℕ) → AreFindings tree stamp result }
    {
        Findings::new(alloc, self.limits, self.looks)
    }

    /// Looks at a leaf, where leaves are looked at. One that is over a limit is consolidated as of the stamp, which is behind
    /// those of all its writes. It costs two walks along the leaf's chain, or one and what `Tree::leaf_as_of` does where
    /// there are too many writes. The consolidated leaf is kept until it takes the place of its chain, or is let go. Nothing
    /// is told of a leaf that finds no memory, or for which a list finds none.
    pub fn look_at(&mut self, tree: &Tree, page: PageId, stamp: u64)
        ensures { GoOn tree.now stamp self.old self.new }
    {
        if self.looks {
            let finding = inspect(tree, &self.limits, page, stamp);
            self.add(finding);
        }
    }

    /// Adds what was found of further leaves of the same tree, as of the same stamp. A leaf at which both looked is told once.
    pub fn append(&mut self, more: Findings)
        requires { more.limits ≡ self.old.limits }
        ensures limits { self.new.limits ≡ self.old.limits }
        ensures found { (tree : TreeView) (stamp : ℕ) →
            AreFindings tree stamp more → GoOn tree stamp self.old self.new }
    {
        let Findings {
            limits: _limits,
            looks: _looks,
            fitting,
            due,
        } = more;
        self.add_all_fitting(fitting);
        self.add_all_due(due);
    }

    /// Those of these pages, which stand in the order of keys, of which it isn't told that there is nothing to do at them. It
    /// is all of them where that is told of none, and where their list finds no memory.
    pub fn left_of(&self, alloc: Alloc, pages: Vec<PageId, Alloc>) -> Vec<PageId, Alloc>
        ensures { AreLeft pages.entry.items self.now.fitting.items result.items }
    {
        if self.fitting.is_empty() {
            return pages;
        }
        match self.list_left(alloc, &pages) {
            Ok(left) => left,
            Err(_) => pages,
        }
    }

    // A list of those of these pages of which it isn't told that there is nothing to do at them.
    fn list_left(&self, alloc: Alloc, pages: &[PageId]) -> Result<Vec<PageId, Alloc>, Memory>
        ensures { IfOk result (λ left. AreLeft pages.now self.now.fitting.items left.items) }
    {
        let mut left = Vec::new(alloc);
        let mut place = 0;
        for page in pages {
            if self.is_fitting_at(place, *page) {
                place = place.saturating_add(1);
            } else {
                left.push(*page)?;
            }
        }
        Ok(left)
    }

    /// Whether there is nothing to do at any leaf of which it is told.
    pub(crate) fn has_none_due(&self) -> bool {
        self.due.is_empty()
    }

    // Whether a page is the one at a place among the leaves at which there is nothing to do.
    fn is_fitting_at(&self, place: usize, page: PageId) -> bool
        ensures { result ≡ true → Contains self.now.fitting.items page }
    {
        match self.fitting.get(place) {
            Some(fitting) => *fitting == page,
            None => false,
        }
    }

    /// What was found of each of these pages, which stand in the opposite order: nothing, of one of which nothing is told.
    pub(crate) fn of_pages(
        self,
        alloc: Alloc,
        pages: &[PageId],
    ) -> Result<Vec<Finding, Alloc>, Memory>
        ensures pages { IfOk result (λ findings. map (λ finding. finding.page) findings.items ≡ pages.now) }
        ensures found { (tree : TreeView) (stamp : ℕ) → AreFindings tree stamp self →
            IfOk result (λ findings. AllByRecursion (IsFinding tree self.limits stamp) findings.items) }
    {
        let Findings { mut due, .. } = self;
        let mut findings = Vec::with_capacity(alloc, pages.len())?;
        for page in pages {
            findings.push(finding_of(&mut due, *page))?;
        }
        Ok(findings)
    }

    // Adds what was found of a leaf.
    fn add(&mut self, finding: Finding)
        ensures { (tree : TreeView) (stamp : ℕ) → IsFinding tree self.old.limits stamp finding →
            GoOn tree stamp self.old self.new }
    {
        if finding.is_fitting() {
            self.add_fitting(finding.page);
        } else {
            self.add_due(finding);
        }
    }

    // Adds leaves at which there is nothing to do.
    fn add_all_fitting(&mut self, pages: Vec<PageId, Alloc>)
        ensures limits { self.new.limits ≡ self.old.limits }
        ensures found { (tree : TreeView) (stamp : ℕ) →
            AllByRecursion (λ p. FitsAt tree self.old.limits p None) pages.entry.items →
            GoOn tree stamp self.old self.new }
    {
        for page in pages {
            self.add_fitting(page);
        }
    }

    // Adds what was found of others.
    fn add_all_due(&mut self, findings: Vec<Finding, Alloc>)
        ensures limits { self.new.limits ≡ self.old.limits }
        ensures found { (tree : TreeView) (stamp : ℕ) →
            AllByRecursion (IsFinding tree self.old.limits stamp) findings.entry.items →
            GoOn tree stamp self.old self.new }
    {
        for finding in findings {
            self.add_due(finding);
        }
    }

    // Adds a leaf at which there is nothing to do, if it isn't the last one and the list has room for it.
    fn add_fitting(&mut self, page: PageId)
        ensures limits { self.new.limits ≡ self.old.limits }
        ensures found { (tree : TreeView) (stamp : ℕ) →
            FitsAt tree self.old.limits page None → GoOn tree stamp self.old self.new }
    {
        if self.fitting.last() != Some(&page) {
            let _ = self.fitting.push(page);
        }
    }

    // Adds what was found of another leaf, if it isn't the last one and the list has room for it.
    fn add_due(&mut self, finding: Finding)
        ensures limits { self.new.limits ≡ self.old.limits }
        ensures found { (tree : TreeView) (stamp : ℕ) → IsFinding tree self.old.limits stamp finding →
            GoOn tree stamp self.old self.new }
    {
        let is_last = match self.due.last() {
            Some(last) => last.page == finding.page,
            None => false,
        };
        if !is_last {
            let _ = self.due.push(finding);
        }
    }
}

// Takes the last finding from a list, if it's that of the page, and else nothing: what is found of the page where none looked.
fn finding_of(findings: &mut Vec<Finding, Alloc>, page: PageId) -> Finding
    ensures page { result.page ≡ page }
    ensures found { (tree : TreeView) (limits : LimitsView) (stamp : ℕ) →
        AllByRecursion (IsFinding tree limits stamp) findings.old.items →
        IsFinding tree limits stamp result × AllByRecursion (IsFinding tree limits stamp) findings.new.items }
{
    let is_next = match findings.last() {
        Some(last) => last.page == page,
        None => false,
    };
    if !is_next {
        return Finding::new(page);
    }
    findings.pop().unwrap()
}
